// The calls by the kind of a case.
use column_bytes::columns;
use wall_bytes::{blocks, walls};

// The numbers of a case: columns of the wall, bytes of a record, which column or round, and the poster or, for rounds and values, the protocol.
#[derive(Clone, Copy)]
pub(super) struct Numbers {
    pub(super) n: u32,
    pub(super) m: u32,
    pub(super) which: u32,
    pub(super) poster: u32,
}

// Makes the call and answers its number; 255 for a kind that is no call.
pub(super) fn call(
    kind: u8,
    x: Numbers,
    a: &[u8],
    b: &mut [u8],
    v: &mut [u16],
    w: &mut [u16],
) -> usize {
    match kind {
        0 => columns::column_rounds(x.poster, x.n),
        1 => columns::column_values(x.poster, x.n, x.m, x.which),
        2 => usize::from(columns::column_fresh(x.n, x.m, x.which, a, b)),
        3 => usize::from(columns::posting_fresh(x.n, x.m, x.which, x.poster, a, b)),
        4 => usize::from(columns::column_speak(b, v)),
        5 => usize::from(columns::column_listen(b, v)),
        6 => usize::from(columns::column_outcome(a, b)),
        7 => usize::from(walls::column_wall(a, b)),
        8 => usize::from(walls::posting_wall(x.poster, a, b)),
        9 => usize::from(blocks::column_decode(x.n, v, w)),
        _ => 255,
    }
}
