// The bytes of one line of each kind.
use super::{Line, write_line};

// Does the line stand at the front of the place, with the old bytes after it?
fn stands(line: &Line, text: &[u8]) -> bool {
    let mut place = [7; 96];
    match write_line(line, &mut place) {
        Ok(n) => n == text.len() && n < 96 && &place[0..n] == text && place[n] == 7,
        Err(_) => false,
    }
}

#[test]
fn scene(rt: HostRuntime) {
    let line = Line::Scene {
        position: 4,
        rounds: 1,
        degrees: &[0, 4],
    };
    assert!(rt; stands(&line, b"4 1 0 4\n"));
}

#[test]
fn count(rt: HostRuntime) {
    let line = Line::count_of(5);
    assert!(rt; stands(&line, b"scenes 5\n"));
}

#[test]
fn refused(rt: HostRuntime) {
    let line = Line::refused_at(4, 1, 0);
    assert!(rt; stands(&line, b"refused 4 line 1 byte 0\n"));
}
