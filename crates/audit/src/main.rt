// Makes a mixed list of calls, refused ones among them, on a rack of three kinds of piles, and re-adds each unit's work by
// itself: modulus times net pulses, plus residue less start residue.
#![tactic(auto)]

use layers::house::{HouseUnit, house_integrator, house_servo};
use layers::turn::Sense;
use machine::job::SetJob;
use machine::job::open::open;
use net::net::Net;
use unit::refusal::Refusal;
use unit::unit::Unit;
use wires::source::Source;
use wires::tap::{Input, Sign};

type Rack = [HouseUnit; 3];

// An integrator, a divided servo and an inverted integrator.
fn units() -> Result<Rack, Refusal> {
    Ok([
        house_integrator(3, 2, 0, 1, Sense::Upright)?,
        house_servo(5, 1, 2, Sense::Upright)?,
        house_integrator(2, -1, 3, 1, Sense::Inverted)?,
    ])
}

fn wired(rack: &mut Rack) -> Result<(SetJob, Net), Refusal> {
    let plus = u8::from(Sign::Plus);
    let minus = u8::from(Sign::Minus);
    let clock = Source::Clock.code();
    let (mut job, mut net) = open();
    for unit in units()? {
        job.place(rack, &mut net, unit)?;
    }
    job.plug(rack, &mut net, 0, Input::X, plus, clock)?;
    job.plug(rack, &mut net, 0, Input::Y, plus, Source::Outside(0).code())?;
    job.plug(rack, &mut net, 1, Input::X, minus, clock)?;
    job.plug(rack, &mut net, 1, Input::Y, plus, Source::Place(0).code())?;
    job.plug(rack, &mut net, 2, Input::X, plus, clock)?;
    job.plug(rack, &mut net, 2, Input::Y, minus, Source::Place(1).code())?;
    let job = job.set(rack, &mut net)?;
    Ok((job, net))
}

fn say(rt: &HostRuntime, call: &str, answer: Result<(), Refusal>) -> anyhow::Result<()> {
    match answer {
        Ok(()) => println!(rt; "{call}: accepted")?,
        Err(refusal) => println!(rt; "{call}: refused {}", u8::from(refusal))?,
    }
    Ok(())
}

fn run_for(
    rt: &HostRuntime,
    job: &SetJob,
    rack: &mut Rack,
    net: &mut Net,
    ticks: u32,
) -> anyhow::Result<()> {
    let ran = job.run(rack, net, ticks);
    match ran.refusal {
        None => println!(rt; "run {ticks}: made {}", ran.made)?,
        Some(refusal) => println!(rt;
            "run {ticks}: made {}, refused {}",
            ran.made,
            u8::from(refusal)
        )?,
    }
    Ok(())
}

fn calls(rt: &HostRuntime, job: &SetJob, rack: &mut Rack, net: &mut Net) -> anyhow::Result<()> {
    say(rt, "feed 0 1", job.feed(rack, net, 0, 1))?;
    say(rt, "feed 0 -1", job.feed(rack, net, 0, -1))?;
    say(rt, "feed 4 1", job.feed(rack, net, 4, 1))?;
    say(rt, "tick", job.tick(rack, net))?;
    run_for(rt, job, rack, net, 3)?;
    say(rt, "feed 0 -1", job.feed(rack, net, 0, -1))?;
    say(rt, "tick", job.tick(rack, net))?;
    run_for(rt, job, rack, net, 9)
}

// The figures of one unit, which stands at the place `number`, and whether its work closes.
fn close(
    rt: &HostRuntime,
    job: &SetJob,
    rack: &Rack,
    net: &Net,
    number: u8,
    start: i64,
) -> anyhow::Result<()> {
    let told = job.read(rack, net, number)?;
    let unit = rack.get(usize::from(number)).ok_or(Refusal::NotThere)?;
    let modulus = unit.modulus();
    println!(rt;
        "unit {number}: position {}, {modulus} x {} + {} - {start}, work {}",
        told.position, told.net, told.residue, told.work
    )?;
    // an i128 holds any such sum, so nothing wraps
    let sum = i128::from(modulus)
        .wrapping_mul(i128::from(told.net))
        .wrapping_add(i128::from(told.residue))
        .wrapping_sub(i128::from(start));
    let closes = if sum == i128::from(told.work) {
        "closes"
    } else {
        "does not close"
    };
    println!(rt; "unit {number}: {closes}")?;
    Ok(())
}

fn main(rt: HostRuntime) -> anyhow::Result<()> {
    let mut rack = units()?;
    let (job, mut net) = wired(&mut rack)?;
    let starts = rack.map(|unit| unit.residue());
    calls(&rt, &job, &mut rack, &mut net)?;
    for (number, &start) in (0..).zip(&starts) {
        close(&rt, &job, &rack, &net, number, start)?;
    }
    Ok(())
}
