// A set of boards in sixteen bits: bit j for board j; tags.
ghost use Rattle.std.specs.Prelude.{◌≡◌, true, ◌<◌};
ghost use Rattle.boards.specs.Boards.{has, single, with_board, meets, within, beyond, tag_of, tagged_in};
ghost use Rattle.boards.specs.Rows.{union, minus};

pub fn has(g: u16, j: u8) -> bool
    requires { j < 16 }
    ensures { result ≡ has g j }
{
    (g >> j) % 2 == 1
}

pub fn single(i: u8) -> u16
    requires { i < 16 }
    ensures { result ≡ single i }
{
    1u16 << i
}

pub fn with_board(g: u16, i: u8) -> u16
    requires { i < 16 }
    ensures { result ≡ with_board g i }
{
    g | single(i)
}

// Whether g and h share a board.
pub fn meet(g: u16, h: u16) -> bool
    ensures { result ≡ meets g (has h) }
{
    g & h != 0
}

pub fn within(g: u16, h: u16) -> bool
    ensures { result ≡ within g h }
{
    g & h == g
}

// The boards of g that are not in h.
pub fn minus(g: u16, h: u16) -> u16
    ensures { result ≡ minus g h }
{
    g & !h
}

// A board of g: the lowest.
pub fn some_board(g: u16) -> u8
    requires { 0 < g }
    ensures { (result < 16) × (has g result ≡ true) }
{
    u16::trailing_zeros(g) as u8
}

// The boards of g and of h.
pub fn union(g: u16, h: u16) -> u16
    ensures { result ≡ union g h }
{
    g | h
}

// Whether g has a bit at or above p.
pub fn beyond(p: u8, g: u16) -> bool
    ensures { result ≡ beyond p g }
{
    if p >= 16 {
        return false;
    }
    g >> p != 0
}

// The active writer that a tag names.
pub fn writer_of(tag: u8) -> Option<u8>
    ensures { tag ≡ tag_of result }
{
    tag.checked_sub(1)
}

// Whether a tag names a member of g.
pub fn tagged_in(g: u16, tag: u8) -> bool
    ensures { result ≡ tagged_in g tag }
{
    match writer_of(tag) {
        Some(j) if j < 16 => has(g, j),
        _ => false,
    }
}
