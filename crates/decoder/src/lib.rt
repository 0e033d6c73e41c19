// The decoder: of n points, the polynomial of degree at most d that meets at least n - t of them, or none. A polynomial that meets that
// many is the answer, however it was found. Where it has one or two coefficients, it is one of those through neighbouring points. Where it has
// more and the one through the first points is not it, an error locator says which points to trust.
#![tactic(auto)]

ghost use Rattle.std.specs.Prelude.{◌≡◌, cond, map, ◌+◌, ◌≤◌, ltb, length, take};
ghost use Rattle.lists.specs.Lists.{bit, count};
ghost use Rattle.field.specs.Field.{subtract, multiply};
ghost use Rattle.messages.specs.Messages.{from as at};
ghost use Rattle.decoder.specs.Decoder.{hits as hits_of, slope as slope_of, slopes as slopes_of, through as through_of, coefficients, four, decoded, found_in, decoded_in};
ghost use Rattle.decoder.specs.Exactly.{Accepts};
ghost use Rattle.decoder.specs.Places.{present_at, usable as usable_of, Next, Chain};
ghost use Rattle.decoder.specs.Answers.{Given, Through, Candidate};
ghost use Rattle.decoder.specs.Windows.{window as window_of};
ghost use Rattle.decoder.specs.Steps.{listed, tail_of, pushed};

use field::Field;
use sizes::numbers::Refusal;

// A polynomial, its constant term first; coefficients that it does not have are 0.
#[derive(Clone, Copy)]
pub struct Coefficients {
    pub c0: u16,
    pub c1: u16,
    pub c2: u16,
    pub c3: u16,
}

// Four places, or the values there.
#[derive(Clone, Copy)]
struct Four {
    a: u16,
    b: u16,
    c: u16,
    d: u16,
}

// How many of the points a polynomial meets. By index, as below: where it was tried, an iterator's sum took a tenth longer.
fn hits(n: usize, points: &[u16], c: Coefficients) -> usize
    requires { (n ≤ 31) × (length points.now ≡ n) }
    ensures { result ≡ hits_of (four c) (at points.now) n }
{
    let word = block::word(&[c.c0, c.c1, c.c2, c.c3], 4);
    let mut sum = 0u16;
    for i in 0..n {
        sum += messages::flag(word[i] == points[i]) as u16;
    }
    sum as usize
}

// 1 for a point, 0 for a blank.
fn one_if_point(y: u16) -> u16
    ensures { result ≡ bit (ltb y 257) }
{
    u16::from(y < Field::MODULUS)
}

// How many of the points are not blank.
fn present(n: usize, points: &[u16]) -> usize
    requires { (n ≤ 31) × (length points.now ≡ n) }
    ensures { result ≡ count (present_at points.now) n }
{
    let mut sum = 0u16;
    for i in 0..n {
        sum += one_if_point(points[i]);
    }
    sum as usize
}

// The slope from the value v at r to the value u at x; 0 where it is not wanted.
fn slope(wanted: bool, r: u16, v: u16, x: u16, u: u16) -> u16
    ensures { result ≡ cond wanted (slope_of r v x u) 0 }
{
    if wanted {
        let rise = Field::subtract(Field(u), Field(v));
        let run = Field::subtract(Field(x), Field(r));
        return Field::multiply(rise, Field::inverse(run)).0;
    }
    0
}

// The slopes from the first value to the next k.
fn slopes(k: usize, x: Four, v: Four) -> Four
    requires { k ≤ 3 }
    ensures { take k (listed result) ≡ slopes_of x.a v.a (take k (listed (tail_of x))) (take k (listed (tail_of v))) }
{
    Four {
        a: slope(0 < k, x.a, v.a, x.b, v.b),
        b: slope(1 < k, x.a, v.a, x.c, v.c),
        c: slope(2 < k, x.a, v.a, x.d, v.d),
        d: 0,
    }
}

// v minus r times c.
fn difference(v: u16, r: u16, c: u16) -> u16
    ensures { result ≡ subtract v (multiply r c) }
{
    Field::subtract(Field(v), Field::multiply(Field(r), Field(c))).0
}

// The polynomial with the value v at r and the quotient q there.
fn push(v: u16, r: u16, q: Coefficients) -> Coefficients
    ensures { result ≡ pushed v r q }
{
    Coefficients {
        c0: difference(v, r, q.c0),
        c1: difference(q.c0, r, q.c1),
        c2: difference(q.c1, r, q.c2),
        c3: Field::of(q.c2).0,
    }
}

// All but the first.
fn tail(x: Four) -> Four
    ensures { result ≡ tail_of x }
{
    Four {
        a: x.b,
        b: x.c,
        c: x.d,
        d: 0,
    }
}

// The polynomial of k coefficients with the first k values v at the first k places x.
fn through(k: usize, x: Four, v: Four) -> Coefficients
    requires { k ≤ 4 }
    ensures { result ≡ coefficients (through_of (take k (listed x)) (take k (listed v))) }
{
    if k == 0 {
        return Coefficients {
            c0: 0,
            c1: 0,
            c2: 0,
            c3: 0,
        };
    }
    let rest = through(k - 1, tail(x), slopes(k - 1, x, v));
    push(v.a, x.a, rest)
}

// The point at place x, counted from 1; blank past the end.
fn at_place(points: &[u16], x: u16) -> u16
    ensures { result ≡ at points.now x }
{
    messages::value(points, x.saturating_sub(1) as usize)
}

// The points at four places.
fn values_at(points: &[u16], x: Four) -> Four
    ensures { listed result ≡ map (at points.now) (listed x) }
{
    Four {
        a: at_place(points, x.a),
        b: at_place(points, x.b),
        c: at_place(points, x.c),
        d: at_place(points, x.d),
    }
}

// Whether the point at place x is not blank and the locator is not 0 there.
fn usable(points: &[u16], es: &[u16; 64], x: u16) -> bool
    requires { (1 ≤ x) × (x ≤ 32) }
    ensures { result ≡ usable_of points.now es.now x }
{
    at_place(points, x) < Field::MODULUS && es[(x - 1) as usize] != 0
}

// The first usable place from `from` on; 33 or more if there is none.
fn next(points: &[u16], es: &[u16; 64], from: u16) -> u16
    requires { (1 ≤ from) × (from ≤ 1000) }
    ensures { Next (usable_of points.now es.now) from result × (result ≤ from + 32) }
{
    (from..33)
        .find(|x| usable(points, es, *x))
        .unwrap_or(from.max(33))
}

// The first four usable places.
fn places(points: &[u16], es: &[u16; 64]) -> Four
    ensures { Chain (usable_of points.now es.now) 1 (listed result) }
{
    let a = next(points, es, 1);
    let b = next(points, es, a + 1);
    let c = next(points, es, b + 1);
    let d = next(points, es, c + 1);
    Four { a, b, c, d }
}

// The polynomial of k coefficients through the points at the first usable places.
fn candidate(k: usize, points: &[u16], es: &[u16; 64]) -> Coefficients
    requires { k ≤ 4 }
    ensures { Candidate points.now es.now k result }
{
    let x = places(points, es);
    through(k, x, values_at(points, x))
}

// By how much a polynomial of k coefficients, one or two, rises from the value v to the value u at the next place.
fn rise(k: usize, v: u16, u: u16) -> u16
    ensures { result ≡ cond (ltb 1 k) (subtract u v) 0 }
{
    if 1 < k {
        return Field::subtract(Field(u), Field(v)).0;
    }
    0
}

// The polynomial of k coefficients, one or two, through the points of a window: at the k places after place a.
fn window(k: usize, points: &[u16], a: u16) -> Coefficients
    requires { (1 ≤ k) × (k ≤ 2) × (a ≤ 1000) }
    ensures { Through points.now (window_of a k) k result }
{
    let v = at_place(points, a + 1);
    let up = rise(k, v, at_place(points, a + 2));
    Coefficients {
        c0: difference(v, a + 1, up),
        c1: up,
        c2: 0,
        c3: 0,
    }
}

// The answer for polynomials of k coefficients, one or two: t + 1 windows of k places lie side by side. A polynomial that meets enough
// misses t places at most, so there is a window where it misses none, and it is the one through the points there. The loop counts the windows.
fn by_windows(n: usize, t: usize, k: usize, points: &[u16]) -> Option<Coefficients>
    requires { Given n t k points.now × (k ≤ 2) }
    ensures { found_in result ≡ decoded n points.now }
{
    let mut a = 0usize;
    for _ in 0..t + 1 {
        let c = window(k, points, a as u16);
        if n - t <= hits(n, points, c) {
            return Some(c);
        }
        a += k;
    }
    None
}

// The answer for polynomials of any size: first the one through the first points, then the one through the first points that the
// locator leaves. If that one does not meet enough either, none does.
fn by_locator(n: usize, t: usize, k: usize, points: &[u16]) -> Option<Coefficients>
    requires { Given n t k points.now }
    ensures { found_in result ≡ decoded n points.now }
{
    let everywhere = [1u16; 64];
    let quick = candidate(k, points, &everywhere);
    if n - t <= hits(n, points, quick) {
        return Some(quick);
    }
    let es = locator::locate((n - 2 * t - 1) as u8, points);
    let last = candidate(k, points, &es);
    if n - t <= hits(n, points, last) {
        return Some(last);
    }
    None
}

// The answer for n points where nothing is refused. The size of a small block is handed on as a literal: then the compiler writes out what is
// done with its coefficients.
fn answer(n: u8, points: &[u16]) -> Option<Coefficients>
    requires { Accepts n points.now }
    ensures { found_in result ≡ decoded n points.now }
{
    let all = n as usize;
    let t = sizes::faults(n);
    let need = all - t;
    if present(all, points) < need {
        return None;
    }
    let d = sizes::degree(n);
    match d {
        0 => by_windows(all, t, 1, points),
        1 => by_windows(all, t, 2, points),
        _ => by_locator(all, t, d + 1, points),
    }
}

// The polynomial of degree at most d that meets at least n - t of the n points, or none. It refuses n outside 4 to 31 with 1, and a
// slice that does not hold n points with 4.
pub fn decode(n: u8, points: &[u16]) -> Result<Option<Coefficients>, Refusal>
    ensures { decoded_in result ≡ decoded n points.now }
{
    sizes::refusal(n, 1, 1)?;
    if points.len() != n as usize {
        return Err(Refusal::Length);
    }
    Ok(answer(n, points))
}
