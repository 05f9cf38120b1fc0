/// A sum over bytes: FNV-1a of 64 bits. Where one byte of a text is another, its sum is another.
#[derive(Clone, Copy)]
pub(crate) struct Sum {
    value: u64,
}

impl Sum {
    /// Of no bytes.
    pub(crate) fn new() -> Sum {
        Sum {
            value: 0xcbf2_9ce4_8422_2325,
        }
    }

    /// With these bytes behind those so far.
    pub(crate) fn with(self, bytes: &[u8]) -> Sum {
        let mut value = self.value;
        for byte in bytes {
            value = (value ^ u64::from(*byte)).wrapping_mul(0x0100_0000_01b3);
        }
        Sum { value }
    }

    /// What it comes to.
    pub(crate) fn value(self) -> u64 {
        self.value
    }
}
