// The sum that stands for a buffer too long to be shown.
ghost use Rattle.std.specs.Prelude.{◌≡◌, ◌+◌, ◌*◌, ◌%◌};
ghost use Rattle.script.specs.Weighing.{weights_from};

// The sum of each byte times one more than its place, modulo 2^32.
pub fn weighed(buffer: &[u8]) -> u64
    ensures { result ≡ weights_from 1 buffer.now % 4294967296 }
{
    let mut sum = 0;
    for i in 0..buffer.len() {
        sum = (sum + weight(buffer[i], i)) % 4294967296;
    }
    sum
}

fn weight(byte: u8, i: usize) -> u64
    ensures { result ≡ (1 + i) * byte % 4294967296 }
{
    (i as u64 % 4294967296 + 1) * u64::from(byte) % 4294967296
}
