//! What is told of whole runs, by the calls that let all their events happen.

use crate::found::same;
use crate::order::{Then, breach, event_of};
use crate::two::address;
use sms_script::Watched;
use sms_world::{
    Breach, Disorder, Doubt, Event, Ground, Limits, PlayFault, Script, Verdicts, WatchedWorld,
    play_trusted, play_watched, run_watched,
};
use std::alloc::{AllocError, Global};
use std::test::Fail;

/// A script, and what is told of its run.
#[derive(Drop)]
struct Told {
    script: &'static str,
    verdicts: Verdicts,
}

/// Of each run it is told how it came out of order, if it did, and whether `accepted` need not mean
/// accepted.
fn tellings() -> [Told; 4] {
    [
        Told {
            script: "phone a +1001\nphone b +1002\ntype a +1002 hi\ncarry 1\npush b\ncarry 4\n",
            verdicts: Verdicts {
                breach: None,
                doubt: None,
            },
        },
        Told {
            script: "phone a +1001\nphone b +1002\ntype a +1002 hi\ncarry 1\ntimeout a\ncarry 4\npush b\ncarry 7\ntick 172800\ncarry 4\npush b\ncarry 12\n",
            verdicts: Verdicts {
                breach: breach(8, Disorder::RepeatAfterTheEnd, 1),
                doubt: None,
            },
        },
        Told {
            script: "phone a +1001\nphone b +1002\ntype a +1002 hi\ncarry 1\ncarry 1\n",
            verdicts: Verdicts {
                breach: breach(3, Disorder::RepeatWithoutRejection, 1),
                doubt: None,
            },
        },
        Told {
            script: "phone a +1001\nphone b +1002\ninject down b 0901190100039101000011040491011000000010100000000002E834\n",
            verdicts: Verdicts {
                breach: Some(Breach {
                    event: 1,
                    disorder: Disorder::Injected,
                    segment: None,
                }),
                doubt: Some(Doubt {
                    event: 1,
                    why: Ground::Injected,
                }),
            },
        },
    ]
}

/// How a script came out of order, if it did.
fn order_of(alloc: Global, script: &str) -> Result<Option<Breach>, PlayFault> {
    let mut source = Watched::new(script.as_bytes());
    let mut words = Script::new(alloc);
    let mut sink = Watched::new(Vec::new(alloc));
    let told = play_watched::<Watched<&[u8]>, Watched<Vec<u8>>>(
        alloc,
        &mut source,
        &mut words,
        &mut sink,
    );
    drop(sink);
    drop(words);
    told
}

/// What is told of a script.
fn verdicts_of(alloc: Global, script: &str) -> Result<Verdicts, PlayFault> {
    let mut source = Watched::new(script.as_bytes());
    let mut words = Script::new(alloc);
    let mut sink = Watched::new(Vec::new(alloc));
    let told = play_trusted::<Watched<&[u8]>, Watched<Vec<u8>>>(
        alloc,
        &mut source,
        &mut words,
        &mut sink,
    );
    drop(sink);
    drop(words);
    told
}

#[test]
fn tells_how_scripts_come_out_of_order(rt: HostRuntime) {
    for row in tellings().iter() {
        let order = order_of(rt.alloc(), row.script);
        same(&rt, &row.script, &order, &Ok(row.verdicts.breach));
    }
}

#[test]
fn tells_whether_accepted_means_accepted_in_scripts(rt: HostRuntime) {
    for row in tellings().iter() {
        let verdicts = verdicts_of(rt.alloc(), row.script);
        same(&rt, &row.script, &verdicts, &Ok(row.verdicts));
    }
}

/// A text is typed, and its packet comes twice.
static TWICE: [Then; 3] = [Then::Short(0), Then::Carry(1), Then::Carry(1)];

/// These events, as a list.
fn events_of(alloc: Global, script: &[Then]) -> Result<Vec<Event>, AllocError> {
    let mut events = Vec::with_capacity(alloc, script.len())?;
    for then in script {
        events.push(event_of(alloc, *then, 0)?)?;
    }
    Ok(events)
}

#[test]
#[tactic(auto, unfolding(sms_field::specs::Address::Same::same_address))]
fn a_run_is_as_its_steps(rt: HostRuntime) -> Result<(), Fail> {
    let phones = [address(1), address(2)];
    let events = events_of(rt.alloc(), &TWICE)?;
    let (world, answers) = run_watched(rt.alloc(), Limits::new(), &phones, events.as_slice())?;
    let mut stepped = WatchedWorld::new(rt.alloc(), Limits::new(), &phones)?;
    for (event, answer) in events.iter().zip(answers.iter()) {
        same(&rt, &"answer", answer, &stepped.step(event));
    }
    let wanted = breach(3, Disorder::RepeatWithoutRejection, 1);
    same(&rt, &"answers", &answers.len(), &3);
    same(&rt, &"order", &world.order(), &wanted);
    same(
        &rt,
        &"packets",
        &world.world().packet_count(),
        &stepped.world().packet_count(),
    );
    Ok(())
}
