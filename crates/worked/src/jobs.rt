use layers::divider::Divider;
use layers::house::house_integrator;
use layers::turn::Sense;
use machine::job::OpenJob;
use machine::job::open::open;
use makes::integrator::Integrator;
use net::net::Net;
use std::test::Fail;
use unit::refusal::Refusal;
use unit::unit::Unit;
use wires::tap::Input;

const PLUS: u8 = 0;

const MINUS: u8 = 1;

const CLOCK: u8 = 0x50;

const LINE_0: u8 = 0x40;

// The unit in the first place of the rack, with the clock on x and one y tap.
fn with_taps(
    rack: &mut [Integrator],
    unit: Integrator,
    sign: u8,
    source: u8,
) -> Result<(OpenJob, Net), Refusal> {
    let (mut job, mut net) = open();
    job.place(rack, &mut net, unit)?;
    job.plug(rack, &mut net, 0, Input::X, PLUS, CLOCK)?;
    job.plug(rack, &mut net, 0, Input::Y, sign, source)?;
    Ok((job, net))
}

// The growth patch: STOP after 9 ticks, with the row of docs/MACHINE.md; what lies beyond the job's units is not touched.
#[test]
fn growth_job(rt: HostRuntime) -> Result<(), Fail> {
    let spare = Integrator::new(3, 7, 5)?;
    let mut rack = [spare; 2];
    let (job, mut net) = with_taps(&mut rack, Integrator::new(2, 1, 0)?, PLUS, 0)?;
    let job = job.set(&rack, &mut net)?;
    let ran = job.run(&mut rack, &mut net, 12);
    assert_eq!(rt; ran.made, 9);
    assert_eq!(rt; ran.refusal, Some(Refusal::LeavesRange { unit: 0 }));
    let mut buffer = [b'.'; 16];
    assert_eq!(rt; job.row(&rack, &net, 0, &mut buffer), Ok(13));
    assert!(rt; buffer == *b"9 0 4 2 4 18\n...");
    assert_eq!(rt;
        job.row(&rack, &net, 1, &mut buffer),
        Err(Refusal::NotThere)
    );
    let mut short = [b'.'; 12];
    assert_eq!(rt;
        job.row(&rack, &net, 0, &mut short),
        Err(Refusal::BufferTooShort)
    );
    assert!(rt; short == [b'.'; 12]);
    assert_eq!(rt; rack[1].position(), 7);
    assert_eq!(rt; rack[1].residue(), 5);
    Ok(())
}

// A refused tick keeps what waits on an outside line; a second feed is refused while it waits.
#[test]
fn feeds(rt: HostRuntime) -> Result<(), Fail> {
    let spare = Integrator::new(1, 0, 0)?;
    let mut rack = [spare];
    let (job, mut net) = with_taps(&mut rack, Integrator::new(1, 2, 0)?, PLUS, LINE_0)?;
    let job = job.set(&rack, &mut net)?;
    assert_eq!(rt; job.feed(&rack, &mut net, 4, 1), Err(Refusal::NoSuchFeed));
    assert_eq!(rt; job.feed(&rack, &mut net, 0, 0), Err(Refusal::NoSuchFeed));
    assert_eq!(rt; job.feed(&rack, &mut net, 0, 1), Ok(()));
    assert_eq!(rt;
        job.feed(&rack, &mut net, 0, -1),
        Err(Refusal::PulseWaiting)
    );
    // position 2 is the top: +1 leaves the range, and goes on waiting
    assert_eq!(rt;
        job.tick(&mut rack, &mut net),
        Err(Refusal::LeavesRange { unit: 0 })
    );
    assert_eq!(rt;
        job.feed(&rack, &mut net, 0, -1),
        Err(Refusal::PulseWaiting)
    );
    let told = job.read(&rack, &net, 0)?;
    assert_eq!(rt; told.ticks, 0);
    assert_eq!(rt; told.position, 2);
    Ok(())
}

// Refusals come in their order: rack or net first, then sign, source, unit and tap.
#[test]
fn plugs(rt: HostRuntime) -> Result<(), Fail> {
    let spare = Integrator::new(1, 0, 0)?;
    let mut rack = [spare];
    let (job, mut net) = with_taps(&mut rack, spare, MINUS, CLOCK)?;
    let (_, mut other) = open();
    assert_eq!(rt;
        job.plug(&rack, &mut other, 9, Input::X, 2, 0xFF),
        Err(Refusal::OtherRackOrNet)
    );
    assert_eq!(rt;
        job.plug(&rack, &mut net, 9, Input::X, 2, 0xFF),
        Err(Refusal::FigureOutOfRange)
    );
    assert_eq!(rt;
        job.plug(&rack, &mut net, 9, Input::X, PLUS, 1),
        Err(Refusal::NoSuchSource)
    );
    assert_eq!(rt;
        job.plug(&rack, &mut net, 9, Input::X, PLUS, 0),
        Err(Refusal::NotThere)
    );
    assert_eq!(rt;
        job.plug(&rack, &mut net, 0, Input::X, PLUS, 0),
        Err(Refusal::TapTaken)
    );
    for _ in 0..3 {
        assert_eq!(rt; job.plug(&rack, &mut net, 0, Input::Y, PLUS, CLOCK), Ok(()));
    }
    assert_eq!(rt;
        job.plug(&rack, &mut net, 0, Input::Y, PLUS, CLOCK),
        Err(Refusal::TapTaken)
    );
    assert_eq!(rt; job.clear(&rack, &mut net, 1), Err(Refusal::NotThere));
    assert_eq!(rt; job.clear(&rack, &mut net, 0), Ok(()));
    assert_eq!(rt; job.plug(&rack, &mut net, 0, Input::X, PLUS, 0), Ok(()));
    Ok(())
}

// A job without units is not set.
#[test]
fn no_units(rt: HostRuntime) -> Result<(), Fail> {
    let (job, mut net) = open();
    let rack = [Integrator::new(1, 0, 0)?];
    let Err(back) = job.set(&rack, &mut net) else {
        return Err(Fail::new("set without units"));
    };
    assert_eq!(rt; back.refusal, Refusal::NoUnits);
    Ok(())
}

// The largest house unit behind a further divider by 2 tells no modulus, so it is not set.
#[test]
fn modulus_untold(rt: HostRuntime) -> Result<(), Fail> {
    let (mut job, mut net) = open();
    let small = Divider::new(1, house_integrator(1, 0, 0, 1, Sense::Upright)?)?;
    let large = Divider::new(2, house_integrator(24, 0, 0, 255, Sense::Upright)?)?;
    let mut rack = [small; 2];
    assert!(rt; job.place(&mut rack, &mut net, small).is_ok());
    assert!(rt; job.place(&mut rack, &mut net, large).is_ok());
    assert!(rt; job.place(&mut rack, &mut net, small).is_err());
    let Err(back) = job.set(&rack, &mut net) else {
        return Err(Fail::new("set without a modulus"));
    };
    assert_eq!(rt; back.refusal, Refusal::ModulusUntold { unit: 1 });
    Ok(())
}
