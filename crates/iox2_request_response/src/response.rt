//! A response.
ghost use Rattle.std.specs.Prelude.{◌≡◌};
ghost use Rattle.iox2_pubsub.specs.Handles.{origin_of};
ghost use Rattle.iox2_pubsub.specs.Live.{SampleReads};
ghost use Rattle.iox2_request_response.specs.Handles.{IsLiveResponse, StaysButResponse};
ghost use Rattle.iox2_request_response.specs.Service.{IsService};

use crate::service::RequestResponse;
use iox2_pubsub::{BackpressureFn, DegradationFn, Sample, UniquePublisherId};

/// A response to a request that was received.
///
/// iceoryx2's `Response` (`src/response.rs`).
pub struct Response {
    pub(crate) sample: Sample,
}

impl Response {
    /// The response's value.
    pub fn payload<'a, Q: Drop, P: Drop, F: BackpressureFn, G: DegradationFn>(
        &self,
        service: &'a RequestResponse<Q, P, F, G>,
    ) -> &'a P
        requires service { IsService service.now }
        requires live { IsLiveResponse service.now self.now }
        ensures reads { SampleReads service.now.responses self.now.sample result.now }
        ensures same { (value : P) → SampleReads service.now.responses self.now.sample value → result.now ≡ value }
    {
        self.sample.payload(&service.responses)
    }

    /// Which server sent it.
    pub fn origin(&self) -> UniquePublisherId
        ensures { result ≡ origin_of self.now.sample }
    {
        self.sample.origin()
    }

    /// Gives the response back.
    pub fn release<Q: Drop, P: Drop, F: BackpressureFn, G: DegradationFn>(
        self,
        service: &mut RequestResponse<Q, P, F, G>,
    )
        requires live { IsLiveResponse service.old self }
        ensures spent { IsLiveResponse service.new self → ⊥ }
        ensures stays { StaysButResponse service.old service.new self }
    {
        let Response { sample } = self;
        sample.release(&mut service.responses);
    }
}
