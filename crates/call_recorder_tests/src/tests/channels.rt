use super::{assert_kept, recorder_for};
use call_recorder::Name;
use iox2_commands::{Command, PublisherChannelCall, Reply, SubscriberChannelCall};

#[test]
fn a_send_to_one_connection_says_which_and_into_which_channel(rt: HostRuntime) {
    let mut recorder = recorder_for(&rt, rt.alloc(), 37, 16);
    recorder.keep_bytes(2, &[7, 7]);
    recorder.keep_send_to(2, 4, 1, None, Reply::Delivered(1));
    recorder.keep_send_to(3, 0, 5, Some(Name::Blocked(8)), Reply::Blocked);
    assert_kept(
        &rt,
        rt.alloc(),
        &recorder,
        "write 3 7 = done\n\
         deliver 3 4 1 = delivered 1\n\
         deliver 4 0 5 = blocked\n",
    );
    assert_eq!(rt; recorder.position_of(Name::Blocked(8)), 2);
}

#[test]
fn calls_of_a_publisher_name_a_channel_of_one_connection(rt: HostRuntime) {
    let mut recorder = recorder_for(&rt, rt.alloc(), 37, 16);
    for (call, reply) in [
        (
            PublisherChannelCall::HasState { state: 0 },
            Reply::Has(true),
        ),
        (
            PublisherChannelCall::HasDisconnectHint { state: 7 },
            Reply::Has(false),
        ),
        (
            PublisherChannelCall::Close { expected: u64::MAX },
            Reply::Done,
        ),
    ] {
        let command = Command::PublisherChannel {
            of: 0,
            channel: 2,
            connection: 3,
            call,
        };
        recorder.keep(command, reply);
    }
    let receiver = u128::MAX;
    recorder.keep(
        Command::ConnectionPlace { of: 0, receiver },
        Reply::Place(None),
    );
    let receiver = 2;
    recorder.keep(
        Command::ConnectionPlace { of: 0, receiver },
        Reply::Place(Some(3)),
    );
    assert_kept(
        &rt,
        rt.alloc(),
        &recorder,
        "state 1 2 3 0 = true\n\
         hinted 1 2 3 7 = false\n\
         shut 1 2 3 18446744073709551615 = done\n\
         connection 1 340282366920938463463374607431768211455 = no place\n\
         connection 1 2 = place 3\n",
    );
}

#[test]
fn calls_of_a_subscriber_name_a_channel_of_all_its_connections(rt: HostRuntime) {
    let mut recorder = recorder_for(&rt, rt.alloc(), 37, 16);
    for (call, reply) in [
        (
            SubscriberChannelCall::SetState { state: 5 },
            Reply::WereClosed(true),
        ),
        (
            SubscriberChannelCall::SetState { state: 6 },
            Reply::WereClosed(false),
        ),
        (
            SubscriberChannelCall::SomeHasState { state: 5 },
            Reply::Has(true),
        ),
        (SubscriberChannelCall::Close { expected: 5 }, Reply::Done),
        (
            SubscriberChannelCall::SetDisconnectHint { expected: 5 },
            Reply::Skipped,
        ),
    ] {
        let command = Command::SubscriberChannel {
            of: 1,
            channel: 2,
            call,
        };
        recorder.keep(command, reply);
    }
    assert_kept(
        &rt,
        rt.alloc(),
        &recorder,
        "open 2 2 5 = all were closed\n\
         open 2 2 6 = not all were closed\n\
         state 2 2 5 = true\n\
         shut 2 2 5 = done\n\
         hint 2 2 5 = skipped\n",
    );
}
