use crate::patch_check;
use lines::frame::Frame;
use lines::taken::frame_at;
use reader::read::read;
use sheet::parts::MakeFigures;
use sheet::sheet::Sheet;
use std::test::Fail;
use unit::refusal::Refusal;
use writer::write::write;

// An integrator of length 2 at 1 that feeds itself, and a servo of limit 4 at -2, inverted and divided by 3, that reads it twice.
const PAIR: &[u8] =
    b"P02\nI000200000001000000000100\nS0100000004FFFFFFFE0301\nX000050\nY000000\nX010150\nY010000\nY010100\nG00000C000003\n";

// The digits are that part of the text, from the byte after the letter on.
#[test]
fn frames_by_line(rt: HostRuntime) -> Result<(), Fail> {
    let Ok(Frame::Integrator(digits)) = frame_at(PAIR, 2) else {
        return Err(Fail::new("line 2 is an integrator"));
    };
    assert_eq!(rt; digits.at, 5);
    assert_eq!(rt; digits.bytes, b"000200000001000000000100".as_slice());
    let Ok(Frame::Servo(digits)) = frame_at(PAIR, 3) else {
        return Err(Fail::new("line 3 is a servo"));
    };
    assert_eq!(rt; digits.at, 31);
    assert_eq!(rt; digits.bytes, b"0100000004FFFFFFFE0301".as_slice());
    assert_eq!(rt; frame_at(PAIR, 0), Err(Refusal::NotThere));
    assert_eq!(rt; frame_at(PAIR, 10), Err(Refusal::NotThere));
    Ok(())
}

// A last line without a line feed counts, and the text need not be a patch.
#[test]
fn frames_of_any_text(rt: HostRuntime) -> Result<(), Fail> {
    let Ok(Frame::Y(digits)) = frame_at(b"G00000C000003\nY3FFFFF", 2) else {
        return Err(Fail::new("line 2 is a y tap"));
    };
    assert_eq!(rt; digits.at, 15);
    assert_eq!(rt; digits.bytes, b"3FFFFF".as_slice());
    assert_eq!(rt; frame_at(b"", 1), Err(Refusal::NotThere));
    assert_eq!(rt; frame_at(b"P01\n", 2), Err(Refusal::NotThere));
    assert_eq!(rt; frame_at(b"P01\n\nP01\n", 2), Err(Refusal::FrameOrder));
    assert_eq!(rt; frame_at(b"Q01", 1), Err(Refusal::FrameOrder));
    assert_eq!(rt; frame_at(b"P1", 1), Err(Refusal::FrameDigits));
    assert_eq!(rt; frame_at(b"X00005a", 1), Err(Refusal::FrameDigits));
    Ok(())
}

#[test]
fn sheet_of_a_pair(rt: HostRuntime) -> Result<(), Fail> {
    let mut sheet = Sheet::blank();
    assert!(rt; read(PAIR, &mut sheet).is_ok());
    assert_eq!(rt; sheet.count(), 2);
    assert_eq!(rt; sheet.ticks(), 12);
    assert_eq!(rt; sheet.step(), 3);
    let Some(servo) = sheet.unit(1) else {
        return Err(Fail::new("there are two units"));
    };
    assert_eq!(rt; servo.make, MakeFigures::Servo { limit: 4 });
    assert_eq!(rt; servo.position, -2);
    assert_eq!(rt; servo.divisor, 3);
    assert!(rt; sheet.unit(2).is_none());
    assert_eq!(rt; sheet.taps().len(), 5);
    assert_eq!(rt; sheet.taps_of(0).len(), 2);
    assert_eq!(rt; sheet.taps_of(1).len(), 3);
    assert_eq!(rt; sheet.taps_of(2).len(), 0);
    Ok(())
}

fn ticks_of(sheet: Sheet) -> u32 {
    sheet.ticks()
}

// A sheet is passed by value and used again, and its copy stays when it is read over.
#[test]
fn copied(rt: HostRuntime) -> Result<(), Fail> {
    let mut sheet = Sheet::blank();
    assert!(rt; read(PAIR, &mut sheet).is_ok());
    assert_eq!(rt; ticks_of(sheet), 12);
    let copy = sheet;
    assert!(rt; read(b"P01\nS000000000500000000FF00\nG000000000001\n", &mut sheet).is_ok());
    assert_eq!(rt; sheet.count(), 1);
    assert_eq!(rt; copy.count(), 2);
    assert_eq!(rt; copy.ticks(), 12);
    assert!(rt; copy.clone()? == copy);
    assert!(rt; copy != sheet);
    Ok(())
}

// The blank sheet's text has 44 bytes; a buffer of 43 keeps what it had.
#[test]
fn blank_sheet(rt: HostRuntime) {
    let sheet = Sheet::blank();
    let mut buffer = [b'.'; 46];
    assert_eq!(rt;
        write(&sheet, &mut buffer[..43]),
        Err(Refusal::BufferTooShort)
    );
    assert_eq!(rt; buffer[0], b'.');
    assert_eq!(rt; write(&sheet, &mut buffer), Ok(44));
    assert_eq!(rt;
        &buffer,
        b"P01\nI000100000000000000000100\nG000000000001\n.."
    );
}

// A refused text leaves the sheet as it was.
#[test]
fn refused_text(rt: HostRuntime) -> Result<(), Fail> {
    let mut sheet = Sheet::blank();
    assert!(rt; read(PAIR, &mut sheet).is_ok());
    let Err(fault) = read(b"P02\nI000200000001000000000100\n", &mut sheet) else {
        return Err(Fail::new("a unit is missing"));
    };
    assert_eq!(rt; fault.refusal, Refusal::FrameOrder);
    assert_eq!(rt; fault.line, 3);
    assert_eq!(rt; sheet.count(), 2);
    assert_eq!(rt; sheet.taps().len(), 5);
    assert_eq!(rt;
        patch_check(b"P02\nI000200000001000000000100\n"),
        2 * 65536 + 3
    );
    assert_eq!(rt; patch_check(PAIR), 0);
    Ok(())
}
