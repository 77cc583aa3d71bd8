use crate::{all_name, all_printable, first_nul, plain_run};

const STOPS: [u8; 16] = *b" \t\r\x0b\x0c\n;#'\"\\\0    ";

/// The first and the last place of each of two loads of lanes, the next, and the last place of the
/// text.
const PLACES: [usize; 6] = [0, 15, 16, 31, 32, 34];

/// Each byte, whether it is a stop, of a name, printable.
const BYTES: [(u8, bool, bool, bool); 33] = [
    (0, true, false, false),
    (1, false, false, false),
    (8, false, false, false),
    (b'\t', true, false, false),
    (b'\n', true, false, false),
    (0x0b, true, false, false),
    (0x0c, true, false, false),
    (b'\r', true, false, false),
    (14, false, false, false),
    (31, false, false, false),
    (b' ', true, false, false),
    (b'!', false, false, true),
    (b'"', true, false, true),
    (b'#', true, false, true),
    (b'\'', true, false, true),
    (b'-', false, false, true),
    (b'/', false, false, true),
    (b'0', false, true, true),
    (b'9', false, true, true),
    (b':', false, false, true),
    (b';', true, false, true),
    (b'@', false, false, true),
    (b'A', false, true, true),
    (b'Z', false, true, true),
    (b'[', false, false, true),
    (b'\\', true, false, true),
    (b'_', false, true, true),
    (b'`', false, false, true),
    (b'z', false, true, true),
    (b'{', false, false, true),
    (b'~', false, false, true),
    (127, false, false, false),
    (255, false, false, false),
];

#[test]
fn each_byte_at_each_place(rt: HostRuntime) {
    for (byte, is_stop, is_name, is_printable) in BYTES {
        for place in PLACES {
            let mut text = [b'a'; 35];
            if let Some(slot) = text.get_mut(place) {
                *slot = byte;
            }
            let run = if is_stop { place } else { 35 };
            let nul = if byte == 0 { Some(place) } else { None };
            assert_eq!(rt; plain_run(&text, &STOPS), run, "{byte} at {place}");
            assert_eq!(rt; first_nul(&text), nul, "{byte} at {place}");
            assert_eq!(rt; all_name(&text), is_name, "{byte} at {place}");
            assert_eq!(rt; all_printable(&text), is_printable, "{byte} at {place}");
        }
    }
}

#[test]
fn no_byte(rt: HostRuntime) {
    assert_eq!(rt; plain_run(&[], &STOPS), 0);
    assert_eq!(rt; first_nul(&[]), None);
    assert!(rt; all_name(&[]));
    assert!(rt; all_printable(&[]));
}

#[test]
fn of_two_places_the_first(rt: HostRuntime) {
    let table = [(70, 100), (63, 64), (15, 16), (16, 31), (98, 99)];
    for (first, second) in table {
        let mut text = [b'a'; 101];
        for (place, slot) in text.iter_mut().enumerate() {
            if place == first || place == second {
                *slot = 0;
            }
        }
        assert_eq!(rt; plain_run(&text, &STOPS), first);
        assert_eq!(rt; first_nul(&text), Some(first));
    }
}
