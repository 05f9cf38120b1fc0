use super::recorder_for;
use call_recorder::{NOWHERE, Name};
use iox2_commands::{Command, Reply};

#[test]
fn a_name_is_that_of_the_command_that_made_it_until_it_is_forgotten(rt: HostRuntime) {
    let mut recorder = recorder_for(&rt, rt.alloc(), 37, 16);
    recorder.keep(Command::Nothing, Reply::Done);
    recorder.keep_maker(Name::Publisher(1), Command::Nothing, Reply::Done);
    recorder.keep_maker(Name::Subscriber(1), Command::Nothing, Reply::Done);
    recorder.keep_maker(Name::Loan(1), Command::Nothing, Reply::Done);
    assert_eq!(rt; recorder.position_of(Name::Publisher(1)), 1);
    assert_eq!(rt; recorder.position_of(Name::Subscriber(1)), 2);
    recorder.forget(Name::Publisher(1));
    assert_eq!(rt; recorder.position_of(Name::Publisher(1)), NOWHERE);
    assert_eq!(rt; recorder.position_of(Name::Subscriber(1)), 2);
    assert_eq!(rt; recorder.position_of(Name::Loan(1)), 3);
    assert_eq!(rt; recorder.position_of(Name::Loan(2)), NOWHERE);
}
