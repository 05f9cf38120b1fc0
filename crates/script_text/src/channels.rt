//! Calls on channels by name.
ghost use Rattle.std.specs.Prelude.{IfNone, IfSome};
ghost use Rattle.iox2_commands.specs.declared.channel_calls.PublisherChannelCall.{PublisherChannelCall};
ghost use Rattle.iox2_commands.specs.declared.channel_calls.SubscriberChannelCall.{SubscriberChannelCall};
ghost use Rattle.script_text.specs.Calls.{IsPublisherCall, IsSubscriberCall};

use iox2_commands::{PublisherChannelCall, SubscriberChannelCall};

/// What a subscriber asks or does by the call of this name, on a channel of all its connections.
pub(crate) fn subscriber_call(call: &str, state: u64) -> Option<SubscriberChannelCall>
    ensures reads { IfSome result (IsSubscriberCall call.now state) }
    ensures refuses { IfNone result ((it : SubscriberChannelCall) → ¬ IsSubscriberCall call.now state it) }
{
    Some(match call {
        "open" => SubscriberChannelCall::SetState { state },
        "state" => SubscriberChannelCall::SomeHasState { state },
        "shut" => SubscriberChannelCall::Close { expected: state },
        "hint" => SubscriberChannelCall::SetDisconnectHint { expected: state },
        _ => return None,
    })
}

/// What a publisher asks or does by the call of this name, on a channel of one connection.
pub(crate) fn publisher_call(call: &str, state: u64) -> Option<PublisherChannelCall>
    ensures reads { IfSome result (IsPublisherCall call.now state) }
    ensures refuses { IfNone result ((it : PublisherChannelCall) → ¬ IsPublisherCall call.now state it) }
{
    Some(match call {
        "state" => PublisherChannelCall::HasState { state },
        "hinted" => PublisherChannelCall::HasDisconnectHint { state },
        "shut" => PublisherChannelCall::Close { expected: state },
        _ => return None,
    })
}
