//! The checksum of an archive.

ghost use Rattle.std.specs.Prelude.{◌≡◌, ◌+◌, ◌*◌, ◌%◌, ◌≤◌, ◌<◌, length, sum};
ghost use Rattle.rkyv_container.specs.{DetectsChange, adler32_of, weighted_sum};

// The modulus of both sums: the greatest prime below 65,536.
const MODULUS: u64 = 65_521;

// The greatest number of bytes that are added up before the sums are reduced.
const BLOCK: usize = 4_096;

#[derive(Clone, Copy, Debug)]
struct Sums {
    low: u64,
    high: u64,
}

/// Returns the checksum Adler-32 of `bytes`, as in zlib. It is no protection from an attacker.
pub fn adler32(bytes: &[u8]) -> u32
    ensures sums { result ≡ adler32_of bytes.now }
    ensures change { DetectsChange bytes.now result }
{
    let mut sums = Sums { low: 1, high: 0 };
    let mut done = 0;
    while done < bytes.len() {
        let end = bytes.len().min(done + BLOCK);
        sums = sums.add(&bytes[done..end]);
        done = end;
    }
    (sums.high * 65_536 + sums.low) as u32
}

impl Sums {
    fn add(self, block: &[u8]) -> Sums
        requires low { self.low < 65521 }
        requires high { self.high < 65521 }
        requires block { length block.now ≤ 4096 }
        ensures low { result.low ≡ (self.low + sum block.now) % 65521 }
        ensures high { result.high
            ≡ (self.high + length block.now * self.low + weighted_sum block.now) % 65521 }
    {
        let mut low = self.low;
        let mut high = self.high;
        for &byte in block {
            low += u64::from(byte);
            high += low;
        }
        Sums {
            low: low % MODULUS,
            high: high % MODULUS,
        }
    }
}
