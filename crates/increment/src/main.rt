// Runs the growth patch: an integrator of length 2 at position 1, with the clock on x and its own pulse as its only y tap.
#![tactic(auto)]

use machine::job::SetJob;
use machine::job::open::open;
use makes::integrator::Integrator;
use net::net::Net;
use std::io::Write;
use unit::refusal::Refusal;
use wires::source::Source;
use wires::tap::{Input, Sign};

// Ticks from one printed row to the next.
const STEP: u32 = 3;

// The job, set, with its unit in the first place of the rack.
fn wired(rack: &mut [Integrator; 1]) -> Result<(SetJob, Net), Refusal> {
    let plus = u8::from(Sign::Plus);
    let (mut job, mut net) = open();
    job.place(rack, &mut net, Integrator::new(2, 1, 0)?)?;
    job.plug(rack, &mut net, 0, Input::X, plus, Source::Clock.code())?;
    job.plug(rack, &mut net, 0, Input::Y, plus, Source::Place(0).code())?;
    let job = job.set(rack, &mut net)?;
    Ok((job, net))
}

// Prints the unit's row.
fn show(rt: &HostRuntime, job: &SetJob, rack: &[Integrator; 1], net: &Net) -> anyhow::Result<()> {
    let mut buffer = [0u8; 128];
    let written = job.row(rack, net, 0, &mut buffer)?;
    rt.stdout().write_all(&buffer[..written])?;
    Ok(())
}

// A row after each third tick, and how the run ended.
fn table(
    rt: &HostRuntime,
    job: &SetJob,
    rack: &mut [Integrator; 1],
    net: &mut Net,
) -> anyhow::Result<()> {
    rt.println("tick unit position residue net work")?;
    // a range, since each loop is proved to end: no job makes as many ticks
    for _ in 0..u32::MAX {
        let ran = job.run(rack, net, STEP);
        if let Some(refusal) = ran.refusal {
            println!(rt; "STOP {} {} 0", net.ticks(), u8::from(refusal))?;
            break;
        }
        show(rt, job, rack, net)?;
    }
    Ok(())
}

fn main(rt: HostRuntime) -> anyhow::Result<()> {
    let mut rack = [Integrator::new(1, 0, 0)?];
    let (job, mut net) = wired(&mut rack)?;
    table(&rt, &job, &mut rack, &mut net)
}
