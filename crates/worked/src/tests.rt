use layers::divider::Divider;
use layers::house::{house_integrator, house_servo};
use layers::turn::{Sense, Turn};
use makes::integrator::Integrator;
use makes::servo::Servo;
use std::test::Fail;
use unit::pulse::Pulse;
use unit::refusal::{Refusal, TextFault};
use unit::tally::Tally;
use unit::unit::Unit;

// Growth at ticks 1 to 9: pulse and residue; the tenth step is refused.
#[test]
fn growth(rt: HostRuntime) -> Result<(), Fail> {
    let rows = [
        (0, 1),
        (0, 2),
        (0, 3),
        (1, 0),
        (0, 2),
        (1, 0),
        (0, 3),
        (1, 2),
        (1, 2),
    ];
    let mut unit = Integrator::new(2, 1, 0)?;
    let mut last = Pulse::Zero;
    for (pulse, residue) in rows {
        last = unit.step(Pulse::Plus, Tally::from(last)).ok_or("refused")?;
        assert_eq!(rt; i8::from(last), pulse);
        assert_eq!(rt; unit.residue(), residue);
    }
    assert_eq!(rt; unit.step(Pulse::Plus, Tally::from(last)), None);
    assert_eq!(rt; unit.position(), 4);
    Ok(())
}

// An inverted unit runs backwards: its pulse, weight and residue change sign.
#[test]
fn inverted(rt: HostRuntime) -> Result<(), Fail> {
    let mut unit = house_integrator(2, -1, 0, 1, Sense::Inverted)?;
    assert_eq!(rt; unit.weight(), 1);
    assert_eq!(rt;
        unit.step(Pulse::Plus, Tally::from(Pulse::Zero)),
        Some(Pulse::Plus)
    );
    assert_eq!(rt; unit.residue(), -3);
    Ok(())
}

// A clone has the figures of its source, the divider's count among them, and goes its own way from there.
#[test]
fn cloned(rt: HostRuntime) -> Result<(), Fail> {
    let mut unit = house_servo(5, -5, 3, Sense::Inverted)?;
    assert_eq!(rt;
        unit.step(Pulse::Plus, Tally::from(Pulse::Zero)),
        Some(Pulse::Plus)
    );
    let mut clone = unit.clone()?;
    assert_eq!(rt; clone, unit);
    assert_eq!(rt; clone.residue(), -2);
    assert_eq!(rt;
        clone.step(Pulse::Plus, Tally::from(Pulse::Zero)),
        Some(Pulse::Zero)
    );
    assert_eq!(rt; clone.residue(), -1);
    assert_eq!(rt; unit.residue(), -2);
    Ok(())
}

// A servo behind a divider by 3 emits every third pulse.
#[test]
fn divided(rt: HostRuntime) -> Result<(), Fail> {
    let mut unit = house_servo(5, -5, 3, Sense::Upright)?;
    assert_eq!(rt;
        unit.step(Pulse::Plus, Tally::from(Pulse::Zero)),
        Some(Pulse::Minus)
    );
    assert_eq!(rt; unit.residue(), 2);
    assert_eq!(rt;
        unit.step(Pulse::Plus, Tally::from(Pulse::Zero)),
        Some(Pulse::Zero)
    );
    assert_eq!(rt;
        unit.step(Pulse::Plus, Tally::from(Pulse::Zero)),
        Some(Pulse::Zero)
    );
    assert_eq!(rt; unit.residue(), 0);
    assert_eq!(rt; unit.accepts(Tally::from(Pulse::Minus)), false);
    Ok(())
}

// The largest house unit tells its modulus; one more divider is too much.
#[test]
fn largest(rt: HostRuntime) -> Result<(), Fail> {
    let unit = house_integrator(24, 0, 0, 255, Sense::Upright)?;
    assert_eq!(rt; unit.modulus(), 4_278_190_080);
    let outer = Divider::new(2, unit)?;
    assert_eq!(rt; outer.modulus(), 0);
    assert_eq!(rt; outer.residue(), 0);
    Ok(())
}

// Refused figures.
#[test]
fn refused(rt: HostRuntime) -> Result<(), Fail> {
    assert!(rt; Integrator::new(25, 0, 0).is_err());
    assert!(rt; Integrator::new(2, 5, 0).is_err());
    assert!(rt; Integrator::new(2, 0, 4).is_err());
    assert!(rt; Servo::new(16_777_217, 0).is_err());
    assert!(rt; house_servo(1, 0, 0, Sense::Upright).is_err());
    let Err(back) = Turn::of_figure(2, Integrator::new(2, 3, 1)?) else {
        return Err(Fail::new("2 is no sense"));
    };
    assert_eq!(rt; back.unit.position(), 3);
    Ok(())
}

// A refusal and a fault of a text print as words.
#[test]
fn texts(rt: HostRuntime) -> Result<(), Fail> {
    let heap = rt.alloc();
    let leaves = format!(in heap; "{}", Refusal::LeavesRange { unit: 3 })?;
    assert_eq!(rt; leaves.as_str(), "unit 3 would leave its range");
    let fault = TextFault {
        refusal: Refusal::FrameOrder,
        line: 7,
    };
    let missing = format!(in heap; "{fault}")?;
    assert_eq!(rt; missing.as_str(), "line 7: no such frame may stand here");
    Ok(())
}
