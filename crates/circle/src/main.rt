// The circle: two integrators of length 24 with the clock on x, each tapping the other with opposite signs. Runs the most
// ticks that a patch text can ask for, and prints the last row of both.
#![tactic(auto)]

use machine::job::SetJob;
use machine::job::open::open;
use makes::integrator::Integrator;
use net::net::Net;
use unit::refusal::Refusal;
use wires::source::Source;
use wires::tap::{Input, Sign};

const TICKS: u32 = 16_777_215;

// Unit 0 starts at half its range and unit 1 at 0: cosine and sine.
fn wired(rack: &mut [Integrator; 2]) -> Result<(SetJob, Net), Refusal> {
    let plus = u8::from(Sign::Plus);
    let minus = u8::from(Sign::Minus);
    let (mut job, mut net) = open();
    job.place(rack, &mut net, Integrator::new(24, 8_388_608, 0)?)?;
    job.place(rack, &mut net, Integrator::new(24, 0, 0)?)?;
    job.plug(rack, &mut net, 0, Input::X, plus, Source::Clock.code())?;
    job.plug(rack, &mut net, 1, Input::X, plus, Source::Clock.code())?;
    job.plug(rack, &mut net, 0, Input::Y, minus, Source::Place(1).code())?;
    job.plug(rack, &mut net, 1, Input::Y, plus, Source::Place(0).code())?;
    let job = job.set(rack, &mut net)?;
    Ok((job, net))
}

fn show(
    rt: &impl Print,
    job: &SetJob,
    rack: &[Integrator; 2],
    net: &Net,
    unit: u8,
) -> anyhow::Result<()> {
    let told = job.read(rack, net, unit)?;
    println!(rt;
        "{} {unit} {} {} {} {}",
        told.ticks, told.position, told.residue, told.net, told.work
    )?;
    Ok(())
}

fn main(rt: HostRuntime) -> anyhow::Result<()> {
    let mut rack = [Integrator::new(1, 0, 0)?; 2];
    let (job, mut net) = wired(&mut rack)?;
    let ran = job.run(&mut rack, &mut net, TICKS);
    show(&rt, &job, &rack, &net, 0)?;
    show(&rt, &job, &rack, &net, 1)?;
    println!(&rt; "END {}", ran.made)?;
    Ok(())
}
