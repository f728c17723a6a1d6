// The firmware of each session: its bytes go by a rule, so that one array serves all.

pub const LONGEST: usize = 1048576;

// The byte at a place.
fn byte(place: usize) -> u8 {
    if LONGEST < place {
        return 0;
    }
    ((place * 7 + place / 256) % 251) as u8
}

// Fills an array by the rule.
pub fn fill(firmware: &mut [u8; LONGEST]) {
    for (place, b) in firmware.iter_mut().enumerate() {
        *b = byte(place);
    }
}

// Whether bytes are those from a place on. Looking at each is faster than stopping at the first other, and the bounds are looked at before
// all of them, so that the loop needs none.
pub fn follows(bytes: &[u8], place: usize) -> bool {
    if LONGEST < place || LONGEST - place < bytes.len() {
        return false;
    }
    let mut other: u8 = 0;
    for (i, b) in bytes.iter().enumerate() {
        other |= *b ^ byte(place + i);
    }
    other == 0
}
