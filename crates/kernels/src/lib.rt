// The two whole-number kernels: falling power and log.
#![tactic(auto)]

ghost use Rattle.std.specs.Prelude.{◌≡◌, ◌^◌, ◌≤◌, ◌<◌, drop};
ghost use Rattle.rules.specs.Kernels.{table, falling_from, falling, log as log_of};

// c_1 to c_24: each the integer square root of the one before times 2^32, from c_0 = 2^31.
const TABLE: [u64; 24] = [
    3037000499, 3611622602, 3938502375, 4112874772, 4202935002, 4248701964, 4271771996, 4283353945,
    4289156689, 4292061009, 4293513906, 4294240539, 4294603902, 4294785595, 4294876444, 4294921869,
    4294944582, 4294955938, 4294961616, 4294964455, 4294965875, 4294966585, 4294966940, 4294967117,
];

// The digits of a behind its first ones, of 24, the highest first, taken into x.
pub fn falling_from(first: usize, a: u64, x: u64) -> u64
    requires { (first ≤ 24) × (x ≤ 2 ^ 32) }
    ensures { result ≡ falling_from (drop first table) a x }
{
    let table = TABLE;
    let mut r = x;
    for j in first..24 {
        if (a >> (23 - j)) % 2 == 1 {
            r = r * table[j] / 4294967296;
        }
    }
    r
}

// About 2^32 * 2^-(a / 2^24).
pub fn falling_power(a: u64) -> u64
    ensures { result ≡ falling a }
{
    falling_from(0, a, 4294967296)
}

// About 2^24 * log2(m / 2^31): 24 digits, the highest first.
pub fn log(m: u64) -> u64
    requires { (2 ^ 31 ≤ m) × (m < 2 ^ 32) }
    ensures { result ≡ log_of m }
{
    let mut x = m;
    let mut a: u64 = 0;
    for _found in 0..24usize {
        let square = x * x / 2147483648;
        if square >= 4294967296 {
            x = square / 2;
            a = 2 * a + 1;
        } else {
            x = square;
            a = 2 * a;
        }
    }
    a
}
