//! Tests of requests and responses.
#![tactic(auto, using(iox2_request_response::proofs::Calling::calling))]

#[cfg(test)]
mod fixtures;
#[cfg(test)]
mod leftovers;
#[cfg(test)]
mod letting_go;
#[cfg(test)]
mod limits;
#[cfg(test)]
mod overflow;
#[cfg(test)]
mod places;
#[cfg(test)]
mod refusals;
#[cfg(test)]
mod servers;
#[cfg(test)]
mod settings;
#[cfg(test)]
mod streams;
#[cfg(test)]
mod waiting;
