use crate::write_row;

// Six numbers, thirteen bytes; the three bytes after the row stay.
#[test]
fn row_of_six(rt: HostRuntime) {
    let mut buffer = [b'.'; 16];
    assert_eq!(rt; write_row(&[9, 0, 4, 2, 4, 18], &mut buffer), Some(13));
    assert_eq!(rt; &buffer, b"9 0 4 2 4 18\n...");
}

#[test]
fn signs(rt: HostRuntime) {
    let mut buffer = [b'.'; 12];
    assert_eq!(rt; write_row(&[-1, 0, -204], &mut buffer), Some(10));
    assert_eq!(rt; &buffer, b"-1 0 -204\n..");
}

#[test]
fn least_number(rt: HostRuntime) {
    let mut buffer = [b'.'; 22];
    assert_eq!(rt; write_row(&[i64::MIN], &mut buffer), Some(21));
    assert_eq!(rt; &buffer, b"-9223372036854775808\n.");
}

#[test]
fn no_fields(rt: HostRuntime) {
    let mut buffer = [b'.'; 2];
    assert_eq!(rt; write_row(&[], &mut buffer), Some(1));
    assert_eq!(rt; &buffer, b"\n.");
}

// Nine bytes are just enough, and eight are not.
#[test]
fn short_buffer(rt: HostRuntime) {
    let fields = [10, -20, 3];
    let mut buffer = [b'.'; 9];
    assert_eq!(rt; write_row(&fields, &mut buffer[..8]), None);
    assert_eq!(rt; &buffer, b".........");
    assert_eq!(rt; write_row(&fields, &mut buffer), Some(9));
    assert_eq!(rt; &buffer, b"10 -20 3\n");
}
