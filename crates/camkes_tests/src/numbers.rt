//! Numbers as text, and codes.

use cam_base::{Code, TextCode, decimal, hex, read_number};

#[test]
fn numbers_are_read(rt: HostRuntime) {
    assert!(rt; read_number(b"0") == Some(0));
    assert!(rt; read_number(b"18446744073709551615") == Some(18446744073709551615));
    assert!(rt; read_number(b"18446744073709551616").is_none());
    assert!(rt; read_number(b"0x1F") == Some(31));
    assert!(rt; read_number(b"0XffffffffffffffFF") == Some(18446744073709551615));
    assert!(rt; read_number(b"0x10000000000000000").is_none());
}

#[test]
fn other_texts_are_no_numbers(rt: HostRuntime) {
    for text in [b"01".as_slice(), b"00", b"0x", b"", b"1a", b"-1"] {
        assert!(rt; read_number(text).is_none());
    }
}

#[test]
fn numbers_in_decimal(rt: HostRuntime) {
    let mut digits = [0; 20];
    let len = decimal(18446744073709551615, &mut digits);
    assert!(rt; &digits[..len] == b"18446744073709551615".as_slice());
}

#[test]
fn numbers_in_hexadecimal(rt: HostRuntime) {
    let mut digits = [0; 18];
    let len = hex(0x40003000, &mut digits);
    assert!(rt; &digits[..len] == b"0x40003000".as_slice());
    let len = hex(0, &mut digits);
    assert!(rt; &digits[..len] == b"0x0".as_slice());
}

#[test]
fn codes(rt: HostRuntime) {
    assert!(rt; Code::Syntax.number() == 4 && Code::Syntax.title() == "Syntax");
    assert!(rt; Code::LeftOut.number() == 31 && Code::LeftOut.title() == "LeftOut");
    assert!(rt;
        TextCode::LabelTwice.word() == "Q2" && TextCode::LabelTwice.title() == "LabelTwice"
    );
    assert!(rt; TextCode::StepLimit.word() == "S3" && TextCode::StepLimit.title() == "Limit");
}
