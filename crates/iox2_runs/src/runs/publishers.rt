//! A publisher is made, of a service of either variant.
ghost use Rattle.std.specs.Prelude.{◌≡◌, ℕ, IfOk, MatchResult};
ghost use Rattle.std.specs.declared.option.Option.TheVariants.{None, Some};
ghost use Rattle.iox2_machine.specs.machine.Environments.{fixed_handlers};
ghost use Rattle.iox2_machine.specs.machine.Ports.{CreatePublisher};
ghost use Rattle.iox2_machine.specs.machine.State.{State, Messages};
ghost use Rattle.iox2_domain.specs.Boxes.{answers_of};
ghost use Rattle.iox2_domain.specs.Shows.{Shows};
ghost use Rattle.iox2_pubsub.specs.Factories.{with_slots};
ghost use Rattle.iox2_pubsub.specs.Handles.{publisher_id};
ghost use Rattle.iox2_pubsub.specs.Live.{IsNewIn, IsReadyPublisher, Stays, publisher_port};
ghost use Rattle.iox2_commands.specs.Step.{publisher_settings};
ghost use Rattle.iox2_runs.specs.Services.{told};

use iox2_commands::NewPublisher;
use iox2_machine::{
    BackpressureFn, BackpressureHandler, DegradationFn, PublisherCreateError, TypeVariant,
};
use iox2_pubsub::{
    DegradationHandler, Domain, NoOverride, PortFactoryPublisher, PortHandle, Publisher,
};

// The factory, told what the command asks of the publisher, except its length and its slots.
fn told<F: BackpressureFn, G: DegradationFn, H>(
    factory: PortFactoryPublisher<F, G, NoOverride, H>,
    asked: NewPublisher,
) -> PortFactoryPublisher<F, G, NoOverride, H>
    requires { factory.settings.backpressure_handler ≡ None }
    ensures { result.settings ≡ told factory.settings asked }
{
    let factory = factory
        .max_loaned_samples(asked.loans)
        .backpressure_strategy(asked.strategy)
        .allocation_strategy(asked.allocation)
        .set_degradation_handler(DegradationHandler::Fixed(asked.degradation));
    match asked.backpressure {
        Some(action) => factory.set_backpressure_handler(BackpressureHandler::Fixed(action)),
        None => factory,
    }
}

// Makes a publisher by the factory, with an override that always asks for `slots` slots.
fn create_asked<
    T: Drop,
    U: Default + Drop,
    F: BackpressureFn,
    G: DegradationFn,
    H: PortHandle<Publisher>,
    P: Fn(usize) -> usize + Drop,
>(
    domain: &mut Domain<T, U, F, G>,
    factory: PortFactoryPublisher<F, G, NoOverride, H>,
    slots: usize,
    callback: P,
) -> Result<H, PublisherCreateError>
    requires can_ask { P.IsAlwaysCallable callback }
    requires asks { (worst n : ℕ) → P.post callback worst n → n ≡ slots }
    ensures creates { (m : Messages T U) (s : State T U) → Shows domain.old m s → (s' : State T U) × Shows domain.new m s'
        × MatchResult result
        (λ publisher. (publisher_id (H.as_port publisher) ≡ s.next_port)
        × CreatePublisher (answers_of F.allows G.allows (domain.new.boxes).publishers) s
        (with_slots factory.settings (Some slots)) s' None)
        (λ e. CreatePublisher (answers_of F.allows G.allows (domain.new.boxes).publishers) s (with_slots factory.settings (Some slots)) s' (Some e)) }
    ensures ready { IfOk result (λ publisher. IsReadyPublisher domain.new (H.as_port publisher)) }
    ensures new { IfOk result (λ publisher. IsNewIn domain.old (publisher_port (H.as_port publisher))) }
    ensures stays { Stays domain.old domain.new }
{
    let factory = factory.override_sample_preallocation(callback);
    factory.create(domain)
}

// Makes a publisher by the factory, with an override that asks for `asked_slots` if that is a number.
fn create<
    T: Drop,
    U: Default + Drop,
    F: BackpressureFn,
    G: DegradationFn,
    H: PortHandle<Publisher>,
>(
    domain: &mut Domain<T, U, F, G>,
    factory: PortFactoryPublisher<F, G, NoOverride, H>,
    asked_slots: Option<usize>,
) -> Result<H, PublisherCreateError>
    requires { factory.settings.asked_slots ≡ None }
    ensures creates { (m : Messages T U) (s : State T U) → Shows domain.old m s → (s' : State T U) × Shows domain.new m s'
        × MatchResult result
        (λ publisher. (publisher_id (H.as_port publisher) ≡ s.next_port)
        × CreatePublisher (answers_of F.allows G.allows (domain.new.boxes).publishers) s
        (with_slots factory.settings asked_slots) s' None)
        (λ e. CreatePublisher (answers_of F.allows G.allows (domain.new.boxes).publishers) s (with_slots factory.settings asked_slots) s' (Some e)) }
    ensures ready { IfOk result (λ publisher. IsReadyPublisher domain.new (H.as_port publisher)) }
    ensures new { IfOk result (λ publisher. IsNewIn domain.old (publisher_port (H.as_port publisher))) }
    ensures stays { Stays domain.old domain.new }
{
    match asked_slots {
        Some(slots) => create_asked(domain, factory, slots, move |_| slots),
        None => factory.create(domain),
    }
}

/// Makes the publisher that the command asks for. In a service for single values its length counts as 1.
pub(crate) fn make_publisher<T: Drop, U: Default + Drop, F: BackpressureFn, G: DegradationFn>(
    domain: &mut Domain<T, U, F, G>,
    asked: NewPublisher,
) -> Result<Publisher, PublisherCreateError>
    ensures creates { (m : Messages T U) (s : State T U) → Shows domain.old m s → (s' : State T U) × Shows domain.new m s'
        × MatchResult result
        (λ publisher. (publisher.id ≡ s.next_port)
        × CreatePublisher fixed_handlers s (publisher_settings (s.config).variant asked) s' None)
        (λ e. CreatePublisher fixed_handlers s (publisher_settings (s.config).variant asked) s' (Some e)) }
    ensures ready { IfOk result (λ publisher. IsReadyPublisher domain.new publisher) }
    ensures new { IfOk result (λ publisher. IsNewIn domain.old (publisher_port publisher)) }
    ensures stays { Stays domain.old domain.new }
{
    match domain.variant() {
        TypeVariant::FixedSize => {
            let factory = told(domain.publisher_builder(), asked);
            create(domain, factory, asked.override_slots)
        }
        TypeVariant::Dynamic => {
            let unasked = domain
                .slice_publisher_builder()
                .initial_max_slice_len(asked.initial_max_slice_len);
            let factory = told(unasked, asked);
            let publisher = create(domain, factory, asked.override_slots)?;
            Ok(publisher.into_inner())
        }
    }
}
