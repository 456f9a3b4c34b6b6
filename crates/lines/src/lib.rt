// Lines taken out of a buffer that is filled from the input. A line that is longer than the buffer is passed over to
// its newline, and said to be long.
#![tactic(auto)]

ghost use Rattle.std.specs.Prelude.{◌≡◌, ℕ, ◌+◌, ◌-◌, ◌≤◌, ◌<◌, length, take, drop};
ghost use Rattle.text.specs.Put.{put};
ghost use Rattle.lines.specs.Lines.{Within, next_of, last_of, left_of, moved_of};

// The bytes of the buffer that are not yet taken, and whether the line that they begin with was begun before them.
#[derive(Clone, Copy)]
pub struct Lines {
    pub from: usize,
    pub to: usize,
    pub long: bool,
}

// A line: where it lies in the buffer, or that it is too long for it.
// No Option: a line that is too long is a line, and is answered.
#[derive(Clone, Copy)]
pub enum Line {
    At { from: usize, to: usize },
    Long,
}

#[derive(Clone, Copy)]
pub struct Taken {
    pub line: Option<Line>,
    pub lines: Lines,
}

// The next line that ends in a newline.
pub fn next_line(buf: &[u8], lines: Lines) -> Taken
    requires { Within buf.now lines }
    ensures { result ≡ next_of buf.now lines }
{
    let Lines { from, to, long } = lines;
    let end = scan::find(buf, from, to, b'\n');
    if end == to {
        return Taken { line: None, lines };
    }
    let line = if long {
        Line::Long
    } else {
        Line::At { from, to: end }
    };
    Taken {
        line: Some(line),
        lines: Lines {
            from: end + 1,
            to,
            long: false,
        },
    }
}

// The line that the input ends with, without its newline.
pub fn last_line(lines: Lines) -> Option<Line>
    ensures { result ≡ last_of lines }
{
    let Lines { from, to, long } = lines;
    if long {
        return Some(Line::Long);
    }
    if from == to {
        return None;
    }
    Some(Line::At { from, to })
}

// The bytes from one place to another, moved to the front; how many they are.
pub fn moved(buf: &mut [u8], from: usize, to: usize) -> usize
    requires { (from ≤ to) × (to ≤ length buf.old) }
    ensures { (result ≡ to - from) × (buf.new ≡ put buf.old 0 (take (to - from) (drop from buf.old))) }
{
    let count = to - from;
    for i in 0..count {
        buf[i] = buf[from + i];
    }
    count
}

// Room behind what is left of the buffer, which holds no newline: it is moved to the front, or dropped where the line is long.
pub fn make_room(buf: &mut [u8], lines: Lines) -> Lines
    requires { Within buf.old lines }
    ensures { (result ≡ left_of buf.old lines) × (buf.new ≡ moved_of buf.old lines) }
{
    let Lines { from, to, long } = lines;
    if long || to - from == buf.len() {
        return Lines {
            from: 0,
            to: 0,
            long: true,
        };
    }
    let count = moved(buf, from, to);
    Lines {
        from: 0,
        to: count,
        long: false,
    }
}
