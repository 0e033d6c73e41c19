// An error locator: of points that may be wrong or blank, the values of a polynomial e at their places. If some polynomial of low degree
// meets enough of the points, it meets every point at which e is not 0, and those are enough to know it by. (Welch and Berlekamp's
// interpolation in Koetter's form, without a division; specs/Locator.antt says how.)
#![tactic(auto)]

ghost use Rattle.std.specs.Prelude.{◌≡◌, ◌+◌, ◌%◌, ◌<◌};
ghost use Rattle.lists.specs.Lists.{list_of};
ghost use Rattle.locator.specs.Held.{run_of};
ghost use Rattle.field.specs.Field.{add, multiply};
ghost use Rattle.locator.specs.Locator.{discrepancy, first_at, second_at, mixed_at, cleared, raised, leads as leads_of, turn as turn_of, located};

use field::Field;
use std::array;

// A pair by its 64 numbers, and how heavy it is.
#[derive(Clone, Copy)]
struct Pair {
    numbers: [u16; 64],
    weight: u16,
}

// A number of the first pair at the start, e = 0 and q = 1.
#[tactic(auto, unfolding(crate::specs::Locator::first_at))]
fn first_at(i: usize) -> u16
    ensures { result ≡ first_at i }
{
    if i < 32 { 0 } else { 1 }
}

fn start_first() -> [u16; 64]
    ensures { result ≡ list_of first_at 64 }
{
    array::from_fn(|i| first_at(i))
}

// A number of the second pair at the start, e = 1 and q = 0.
fn second_at(points: &[u16], i: usize) -> u16
    ensures { result ≡ second_at points.now i }
{
    if i < 32 {
        return 1;
    }
    Field::subtract(Field(0), Field(messages::value(points, i - 32))).0
}

fn start_second(points: &[u16]) -> [u16; 64]
    ensures { result ≡ list_of (second_at points.now) 64 }
{
    array::from_fn(|i| second_at(points, i))
}

// v times the place of index i less another place, of which `minus` is the negative. The second product is none: the sum of two is what the machine
// does eight at a time.
fn raised_at(minus: u16, i: usize, v: u16) -> u16
    ensures { result ≡ multiply (add (i % 32 + 1) minus) v }
{
    let factor = Field::add(Field((i % 32 + 1) as u16), Field(minus));
    Field::add_products(factor, Field(v), Field(0), Field(0)).0
}

// a times these numbers plus b times those of the leading pair. By index: two arrays are read in step, eight places at a time.
fn mix(numbers: &mut [u16; 64], a: u16, b: u16, lead: &[u16; 64])
    ensures { numbers.new ≡ list_of (mixed_at a b numbers.old lead.now) 64 }
{
    for i in 0..64 {
        numbers[i] = Field::add_products(Field(a), Field(numbers[i]), Field(b), Field(lead[i])).0;
    }
}

// The numbers times (x - place). By index, which says the place that a number belongs to.
fn raise(numbers: &mut [u16; 64], place: u16)
    ensures { numbers.new ≡ raised place numbers.old }
{
    let minus = Field::subtract(Field(0), Field(place));
    for i in 0..64 {
        numbers[i] = raised_at(minus.0, i, numbers[i]);
    }
}

impl Pair {
    // At index j, how far the pair is from fitting the point there.
    fn discrepancy(&self, j: usize) -> u16
        requires { j < 32 }
        ensures { result ≡ discrepancy self.now.numbers j }
    {
        self.numbers[32 + j]
    }

    // The discrepancy at index j is taken away, with the help of the leading pair.
    fn clear(&mut self, lead: &Pair, j: usize)
        requires { j < 32 }
        ensures { self.new ≡ record { numbers = cleared j self.old.numbers lead.now.numbers; weight = self.old.weight } }
    {
        let b = Field::subtract(Field(0), Field(self.discrepancy(j)));
        mix(&mut self.numbers, lead.discrepancy(j), b.0, &lead.numbers);
    }

    // The pair times (x - place), which makes it heavier.
    fn raise(&mut self, place: u16)
        requires { self.old.weight < 1000 }
        ensures { self.new ≡ record { numbers = raised place self.old.numbers; weight = self.old.weight + 1 } }
    {
        raise(&mut self.numbers, place);
        self.weight += 1;
    }
}

// Whether a pair with the discrepancy x and the weight v leads before one with y and w.
fn leads(x: u16, y: u16, v: u16, w: u16) -> bool
    ensures { result ≡ leads_of x y v w }
{
    x != 0 && (y == 0 || v <= w)
}

// Both pairs are made to fit the point y at index j.
fn turn(first: &mut Pair, second: &mut Pair, y: u16, j: usize)
    requires { (j < 32) × (first.old.weight < 1000) × (second.old.weight < 1000) }
    ensures { run_of first.new second.new ≡ turn_of (run_of first.old second.old) y j }
{
    if Field::MODULUS <= y {
        return;
    }
    let x = first.discrepancy(j);
    let z = second.discrepancy(j);
    if leads(x, z, first.weight, second.weight) {
        second.clear(first, j);
        first.raise(j as u16 + 1);
        return;
    }
    if z == 0 {
        return;
    }
    first.clear(second, j);
    second.raise(j as u16 + 1);
}

// The lighter pair after all places, 32 however many points there are. `weight` is n - 2t - 1 for n points of which t may be wrong.
pub fn locate(weight: u8, points: &[u16]) -> [u16; 64]
    ensures { result ≡ located weight points.now }
{
    let mut first = Pair {
        numbers: start_first(),
        weight: 0,
    };
    let mut second = Pair {
        numbers: start_second(points),
        weight: weight as u16,
    };
    for j in 0..32 {
        turn(&mut first, &mut second, messages::value(points, j), j);
    }
    if first.weight <= second.weight {
        return first.numbers;
    }
    second.numbers
}
