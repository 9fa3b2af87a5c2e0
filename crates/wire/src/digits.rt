// Numbers as twelve decimal digits in ASCII, zeros in front, and back.
ghost use Rattle.std.specs.Prelude.{◌≡◌, ◌-◌, ◌/◌, ◌<◌, take};
ghost use Rattle.wire.specs.Numbers.{decimal, decimal_value};

// The last twelve decimal digits of n: all of them below 10^12.
// Two at a time and from the end, so that any n takes six divisions and no remainder (document 02, A3).
pub fn digits(n: u64) -> [u8; 12]
    ensures { result ≡ decimal 12 n }
{
    let mut out = [b'0'; 12];
    let mut rest = n;
    for i in (0..6).rev() {
        let next = rest / 100;
        let pair = (rest - 100 * next) as u32;
        let tens = tens_of(pair);
        let ones = pair - 10 * tens;
        out[2 * i + 1] = b'0' + ones as u8;
        out[2 * i] = b'0' + tens as u8;
        rest = next;
    }
    out
}

// The first of two digits without a division: 103 / 1024 is a little over a tenth, and the difference first shows at 179.
fn tens_of(pair: u32) -> u32
    requires { pair < 100 }
    ensures { result ≡ pair / 10 }
{
    pair * 103 >> 10
}

// A byte less the code of the digit 0; below it 0.
fn digit_value(c: u8) -> u64
    ensures { result ≡ c - 48 }
{
    u64::from(c.saturating_sub(b'0'))
}

// The number that the first twelve bytes stand for as digits. Whether they are digits is not asked: those of the number are
// the same bytes exactly if they were.
pub fn number(s: &[u8]) -> u64
    ensures { result ≡ decimal_value (take 12 s.now) }
{
    let mut sum = 0;
    for c in s.get(..12).unwrap_or(s) {
        sum = 10 * sum + digit_value(*c);
    }
    sum
}
