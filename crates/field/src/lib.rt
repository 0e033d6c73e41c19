// The field of the wall: the whole numbers modulo 257.
#![tactic(auto)]

ghost use Rattle.std.specs.Prelude.{◌≡◌, true, ◌*◌, ◌≤◌};
ghost use Rattle.field.specs.Congruence.{◌≋◌};
ghost use Rattle.field.specs.Field.{element, of, add, subtract, multiply, inverse, inverse_table};

// The modulus where sums and products are made.
const WIDE: u32 = Field::MODULUS as u32;

// A number below it times a reduced one, and a reduced one more, fits 16 bits.
const SMALL: u16 = 255;

// The inverses of 1 to 256, at 0 to 255: number times entry leaves 1 modulo 257.
const INVERSES: [u16; 256] = [
    1, 129, 86, 193, 103, 43, 147, 225, 200, 180, 187, 150, 178, 202, 120, 241, 121, 100, 230, 90,
    49, 222, 190, 75, 72, 89, 238, 101, 195, 60, 199, 249, 148, 189, 235, 50, 132, 115, 145, 45,
    163, 153, 6, 111, 40, 95, 175, 166, 21, 36, 126, 173, 97, 119, 243, 179, 248, 226, 61, 30, 59,
    228, 102, 253, 87, 74, 234, 223, 149, 246, 181, 25, 169, 66, 24, 186, 247, 201, 244, 151, 165,
    210, 96, 205, 127, 3, 65, 184, 26, 20, 209, 176, 152, 216, 46, 83, 53, 139, 135, 18, 28, 63, 5,
    215, 164, 177, 245, 188, 224, 250, 44, 218, 116, 124, 38, 113, 134, 159, 54, 15, 17, 158, 140,
    114, 220, 51, 85, 255, 2, 172, 206, 37, 143, 117, 99, 240, 242, 203, 98, 123, 144, 219, 133,
    141, 39, 213, 7, 33, 69, 12, 80, 93, 42, 252, 194, 229, 239, 122, 118, 204, 174, 211, 41, 105,
    81, 48, 237, 231, 73, 192, 254, 130, 52, 161, 47, 92, 106, 13, 56, 10, 71, 233, 191, 88, 232,
    76, 11, 108, 34, 23, 183, 170, 4, 155, 29, 198, 227, 196, 31, 9, 78, 14, 138, 160, 84, 131,
    221, 236, 91, 82, 162, 217, 146, 251, 104, 94, 212, 112, 142, 125, 207, 22, 68, 109, 8, 58,
    197, 62, 156, 19, 168, 185, 182, 67, 35, 208, 167, 27, 157, 136, 16, 137, 55, 79, 107, 70, 77,
    57, 32, 110, 214, 154, 64, 171, 128, 256,
];

// The table, with its rule.
#[tactic(auto, unfolding(crate::specs::Field::inverse_table, crate::specs::Field::inverse_entry, lists::specs::Lists::all))]
fn inverses() -> [u16; 256]
    ensures { inverse_table result ≡ true }
{
    INVERSES
}

// A number of the field. Each call takes any 16-bit number modulo 257, and what it gives is below 257.
#[derive(Clone, Copy)]
pub struct Field(pub u16);

impl Field {
    pub const MODULUS: u16 = 257;
    // A message value that is no point. It is no number of the field either: `of` would read it as 0.
    pub const BLANK: u16 = 65535;

    pub fn of(x: u16) -> Field
        ensures { result ≡ element (of x) }
    {
        Field(x % Self::MODULUS)
    }

    pub fn add(a: Field, b: Field) -> Field
        ensures { result ≡ element (add a.0 b.0) }
    {
        Field((a.0 % Self::MODULUS + b.0 % Self::MODULUS) % Self::MODULUS)
    }

    pub fn subtract(a: Field, b: Field) -> Field
        ensures { result ≡ element (subtract a.0 b.0) }
    {
        Field((a.0 % Self::MODULUS + (Self::MODULUS - b.0 % Self::MODULUS)) % Self::MODULUS)
    }

    pub fn multiply(a: Field, b: Field) -> Field
        ensures { result ≡ element (multiply a.0 b.0) }
    {
        Field(((a.0 as u32 * b.0 as u32) % WIDE) as u16)
    }

    // a plus b times c, with one division. Where b is small, as the point of a column is, the sum fits 16 bits, and the machine does eight at a time.
    pub fn add_product(a: Field, b: Field, c: Field) -> Field
        ensures { result ≡ element (add a.0 (multiply b.0 c.0)) }
    {
        if b.0 < SMALL {
            return Field((a.0 % Self::MODULUS + b.0 * (c.0 % Self::MODULUS)) % Self::MODULUS);
        }
        Field(((a.0 as u32 + b.0 as u32 * c.0 as u32) % WIDE) as u16)
    }

    // A small number that is a times b modulo 257: 65536 leaves 1, and 256 leaves -1. By `to_le_bytes` it is three in a hundred slower.
    #[tactic(auto, using(crate::specs::Congruence::near, crate::specs::Congruence::times, crate::specs::Congruence::reduce))]
    fn near(a: Field, b: Field) -> u16
        ensures { (result ≤ 767) × (result ≋ a.0 * b.0) }
    {
        let x = (a.0 % Self::MODULUS) as u32 * b.0 as u32;
        let low = (x % 65536) as u16;
        let high = (x / 65536) as u16;
        low % 256 + high + Self::MODULUS - low / 256
    }

    // a times b plus c times d, with one division of a sum that fits 16 bits, so that the machine does eight at a time.
    pub fn add_products(a: Field, b: Field, c: Field, d: Field) -> Field
        ensures { result ≡ element (add (multiply a.0 b.0) (multiply c.0 d.0)) }
    {
        Field((Self::near(a, b) + Self::near(c, d)) % Self::MODULUS)
    }

    // The number that times a leaves 1; 0 for 0.
    #[tactic(auto, using(crate::specs::Laws::inverse_zero, crate::specs::Laws::table_entry, crate::specs::Laws::inverse_of))]
    pub fn inverse(a: Field) -> Field
        ensures { result ≡ element (inverse a.0) }
    {
        let k = (a.0 % Self::MODULUS) as usize;
        if k == 0 {
            return Field(0);
        }
        Field(inverses()[k - 1])
    }
}
