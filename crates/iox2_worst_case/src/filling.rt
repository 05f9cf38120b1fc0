//! A list of commands that fills every slot of its publisher.
ghost use Rattle.std.specs.Prelude.{◌≡◌, ◌+◌, ◌*◌, ◌≤◌, ◌<◌, ◌∷◌, [], ◌++◌, ◌↔◌, replicate, IsTrue, IfSome, OnSome, ℕ, vec_len, vec_capacity};
ghost use Rattle.iox2_machine.specs.machine.Limits.{worst_case};
ghost use Rattle.iox2_worst_case.specs.Fills.{Fills, is_granted};
ghost use Rattle.iox2_worst_case.specs.FillingCommands.{loan_command as loan_spec};
ghost use Rattle.iox2_worst_case.specs.FillingCommands.{publisher_command as publisher_spec, sends, rounds};
ghost use Rattle.iox2_worst_case.specs.FillingCommands.{subscriber_filled, subscribers_filled, filling_length};
ghost use Rattle.iox2_worst_case.specs.FillingCommands.{filling_commands, IsFillable, RefusesForWantOfSlots};
ghost use Rattle.iox2_commands.specs.declared.command.Command.TheVariants.{WriteAll, Send};

use iox2_commands::{Command, NewPublisher, Reply};
use iox2_machine::{
    BackpressureStrategy, DegradationAction, ServiceConfig, TypeVariant, worst_case_slots,
};
use std::alloc::Global;

/// A list of commands that make a publisher need every slot of the worst case, in a new domain with
/// these settings. This library's own.
///
/// The first command makes the publisher, with this limit of loans and this override of its slots.
/// Then each subscriber that there may be is made, one after another: it receives as many messages
/// as it may borrow, its buffer is filled, and so is the history, with messages that no subscriber
/// has room for. Then all loans are taken. Each message that is sent is `value`.
///
/// Without an override, and with ample memory, no command of the list is skipped or refused. With
/// an override of fewer than `worst_case_slots`, one of its loans is refused with
/// `LoanError::OutOfMemory` while fewer than `loans` are out.
///
/// `None` if the service overwrites messages, may have no publisher or no subscriber, has
/// elements of more than one unit or connections of more than one channel; if `loans` is 0; if
/// the worst case or the length of the list doesn't fit `usize`; and if memory for the list is
/// refused.
pub fn worst_case_commands<T: Copy + Drop, U: Drop>(
    alloc: Global,
    config: &ServiceConfig,
    loans: usize,
    value: T,
    slots: Option<usize>,
) -> Option<Vec<Command<T, U>>>
    ensures fillable { OnSome result (IsFillable config.now loans) }
    ensures commands { IfSome result (λ list. list.items ≡ filling_commands config.now loans value slots) }
    ensures fills { IfSome result (λ list. slots ≡ None → Fills config.now loans list.items) }
    ensures least { IfSome result (λ list. (fewer : ℕ) → slots ≡ Some fewer → fewer < worst_case config.now loans
        → RefusesForWantOfSlots config.now loans list.items) }
{
    if !is_fillable(config, loans) {
        return None;
    }
    let length = list_length(config, loans)?;
    let Ok(mut commands) = Vec::with_capacity(alloc, length) else {
        return None;
    };
    commands.push_reserved(publisher_command(loans, slots));
    push_subscribers(&mut commands, config, value);
    push_loans(&mut commands, config.variant, loans);
    Some(commands)
}

/// Whether a reply says that the command was neither skipped nor refused.
pub fn is_granted<T, U>(reply: &Reply<T, U>) -> bool
    ensures { result ≡ is_granted reply.now }
{
    !matches!(
        reply,
        Reply::Skipped
            | Reply::PublisherRefused(_)
            | Reply::SubscriberRefused(_)
            | Reply::LoanRefused(_)
            | Reply::SendRefused(_)
            | Reply::UpdateRefused(_)
            | Reply::ReceiveRefused(_)
    )
}

// Whether there is such a list: without its length, and whatever memory there is.
fn is_fillable(config: &ServiceConfig, loans: usize) -> bool
    ensures { IsTrue result ↔ IsFillable config.now loans }
{
    !config.enable_safe_overflow
        && config.max_publishers > 0
        && config.max_subscribers > 0
        && loans > 0
        && config.units_per_element == 1
        && config.number_of_channels <= 1
        && worst_case_slots(config, loans).is_some()
}

// How many commands the list has; `None` if that doesn't fit.
fn list_length(config: &ServiceConfig, loans: usize) -> Option<usize>
    ensures { IfSome result (λ n. n ≡ 1 + config.now.max_subscribers * filling_length config.now + loans) }
{
    let each = filling_length(config)?;
    let all = config.max_subscribers.checked_mul(each)?;
    all.checked_add(loans)?.checked_add(1)
}

// How many commands make and fill one subscriber; `None` if that doesn't fit.
fn filling_length(config: &ServiceConfig) -> Option<usize>
    ensures { IfSome result (λ n. n ≡ filling_length config.now) }
{
    let rounds = config.subscriber_max_borrowed_samples.checked_mul(4)?;
    let buffer = config.subscriber_max_buffer_size.max(1);
    let sends = buffer.checked_add(config.history_size)?.checked_mul(3)?;
    rounds.checked_add(sends)?.checked_add(2)
}

// Makes a publisher that discards what a full receiver doesn't take.
fn publisher_command<T, U>(loans: usize, slots: Option<usize>) -> Command<T, U>
    ensures { result ≡ publisher_spec loans slots }
{
    Command::CreatePublisher(NewPublisher {
        override_slots: slots,
        ..NewPublisher::new(loans, BackpressureStrategy::DiscardData)
    })
}

// Loans one element.
fn loan_command<T, U>(variant: TypeVariant) -> Command<T, U>
    ensures { result ≡ loan_spec variant }
{
    match variant {
        TypeVariant::FixedSize => Command::LoanUninit { of: 0 },
        TypeVariant::Dynamic => Command::LoanSlice { of: 0, len: 1 },
    }
}

// A message is loaned, written and sent.
fn push_send<T: Copy, U>(commands: &mut Vec<Command<T, U>>, variant: TypeVariant, value: T)
    requires { vec_len commands.old + 3 ≤ vec_capacity commands.old }
    ensures items { commands.new.items ≡ commands.old.items ++ loan_spec variant ∷ WriteAll (vec_len commands.old) value ∷ Send (vec_len commands.old) ∷ [] }
    ensures len { vec_len commands.new ≡ vec_len commands.old + 3 }
    ensures capacity { vec_capacity commands.new ≡ vec_capacity commands.old }
{
    let of = commands.len();
    commands.push_reserved(loan_command(variant));
    commands.push_reserved(Command::WriteAll { of, value });
    commands.push_reserved(Command::Send { of });
}

// `count` messages are sent.
fn push_sends<T: Copy, U>(
    commands: &mut Vec<Command<T, U>>,
    variant: TypeVariant,
    value: T,
    count: usize,
)
    requires { vec_len commands.old + 3 * count ≤ vec_capacity commands.old }
    ensures items { commands.new.items ≡ commands.old.items ++ sends variant value (vec_len commands.old) count }
    ensures len { vec_len commands.new ≡ vec_len commands.old + 3 * count }
    ensures capacity { vec_capacity commands.new ≡ vec_capacity commands.old }
{
    for _round in 0..count {
        push_send(commands, variant, value);
    }
}

// `count` messages are sent, and the subscriber receives each.
fn push_rounds<T: Copy, U>(
    commands: &mut Vec<Command<T, U>>,
    variant: TypeVariant,
    value: T,
    subscriber: usize,
    count: usize,
)
    requires { vec_len commands.old + 4 * count ≤ vec_capacity commands.old }
    ensures items { commands.new.items ≡ commands.old.items ++ rounds variant value subscriber (vec_len commands.old) count }
    ensures len { vec_len commands.new ≡ vec_len commands.old + 4 * count }
    ensures capacity { vec_capacity commands.new ≡ vec_capacity commands.old }
{
    for _round in 0..count {
        push_send(commands, variant, value);
        commands.push_reserved(Command::Receive { of: subscriber });
    }
}

// A subscriber is made and filled, and then the history is.
fn push_subscriber<T: Copy, U>(commands: &mut Vec<Command<T, U>>, config: &ServiceConfig, value: T)
    requires { vec_len commands.old + filling_length config.now ≤ vec_capacity commands.old }
    ensures items { commands.new.items ≡ commands.old.items ++ subscriber_filled config.now value (vec_len commands.old) }
    ensures len { vec_len commands.new ≡ vec_len commands.old + filling_length config.now }
    ensures capacity { vec_capacity commands.new ≡ vec_capacity commands.old }
{
    let subscriber = commands.len();
    let borrowed = config.subscriber_max_borrowed_samples;
    let buffer = config.subscriber_max_buffer_size.max(1);
    commands.push_reserved(Command::CreateSubscriber {
        buffer: None,
        degradation: DegradationAction::Warn,
    });
    commands.push_reserved(Command::Update { of: 0 });
    push_rounds(commands, config.variant, value, subscriber, borrowed);
    push_sends(commands, config.variant, value, buffer);
    push_sends(commands, config.variant, value, config.history_size);
}

// All subscribers are made and filled.
fn push_subscribers<T: Copy, U>(commands: &mut Vec<Command<T, U>>, config: &ServiceConfig, value: T)
    requires { vec_len commands.old + config.now.max_subscribers * filling_length config.now ≤ vec_capacity commands.old }
    ensures items { commands.new.items ≡ commands.old.items ++ subscribers_filled config.now value (vec_len commands.old) config.now.max_subscribers }
    ensures len { vec_len commands.new ≡ vec_len commands.old + config.now.max_subscribers * filling_length config.now }
    ensures capacity { vec_capacity commands.new ≡ vec_capacity commands.old }
{
    for _subscriber in 0..config.max_subscribers {
        push_subscriber(commands, config, value);
    }
}

// `count` loans are taken.
fn push_loans<T, U>(commands: &mut Vec<Command<T, U>>, variant: TypeVariant, count: usize)
    requires { vec_len commands.old + count ≤ vec_capacity commands.old }
    ensures { commands.new.items ≡ commands.old.items ++ replicate count (loan_spec variant) }
{
    for _loan in 0..count {
        commands.push_reserved(loan_command(variant));
    }
}
