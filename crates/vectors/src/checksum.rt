// The checksum of the vectors, FNV-1a with 32 bits. Numbers of more than one byte go in with their high byte first.
ghost use Rattle.std.specs.Prelude.{◌≡◌, ℕ, fold};
ghost use Rattle.vectors.specs.Bytes.{mix, mix16, mix32, mix64};

// The checksum of no bytes.
pub const CHECKSUM_START: u32 = 2166136261;

// The factor that each byte brings.
const FACTOR: u32 = 16777619;

// What goes into the checksum: a number of one, two, four or eight bytes.
pub trait Mixed: Copy {
    ghost mix_of: { ℕ → Self → ℕ };

    // The checksum with the number.
    fn mixed(self, hash: u32) -> u32
        ensures { result ≡ mix_of hash self };
}

impl Mixed for u8 {
    ghost mix_of = { mix };

    fn mixed(self, hash: u32) -> u32 {
        (hash ^ u32::from(self)).wrapping_mul(FACTOR)
    }
}

impl Mixed for u16 {
    ghost mix_of = { mix16 };

    #[tactic(auto, unfolding(crate::specs::Bytes::mix16))]
    fn mixed(self, hash: u32) -> u32 {
        mixed_all(hash, &u16::to_be_bytes(self))
    }
}

impl Mixed for u32 {
    ghost mix_of = { mix32 };

    fn mixed(self, hash: u32) -> u32 {
        mixed_all(hash, &u32::to_be_bytes(self))
    }
}

impl Mixed for u64 {
    ghost mix_of = { mix64 };

    fn mixed(self, hash: u32) -> u32 {
        mixed_all(hash, &u64::to_be_bytes(self))
    }
}

// The checksum with the numbers of a slice.
pub fn mixed_all<T: Mixed>(hash: u32, numbers: &[T]) -> u32
    ensures { result ≡ fold T.mix_of hash numbers.now }
{
    numbers.iter().fold(hash, |h, number| number.mixed(h))
}
