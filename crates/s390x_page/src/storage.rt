//! The storage of a small machine: 1024 bytes.
ghost use Rattle.std.specs.Prelude.{◌≡◌, false, MatchOption};
ghost use Rattle.s390x_operations.specs.State.{reaches};
ghost use Rattle.s390x_machine.specs.State.{AreBytes};
ghost use Rattle.s390x_page.specs.Stepping.{byte_of, is_held};

use s390x_machine::Memory;

/// Bytes at the addresses from `start` on. No other address is accessible.
#[repr(C)]
#[derive(Drop)]
pub struct Storage {
    pub start: u64,
    pub bytes: [u8; 1024],
}

impl Storage {
    // Whether the address is that of a byte.
    fn contains(&self, address: u64) -> bool
        ensures { result ≡ is_held self.now address }
    {
        address >= self.start && address - self.start < 1024
    }
}

impl Memory for Storage {
    ghost held = { is_held };

    ghost byte = { byte_of };

    fn has(&self, address: u64) -> bool {
        self.contains(address)
    }

    fn get(&self, address: u64) -> u8 {
        self.bytes[(address - self.start) as usize]
    }

    fn byte_at(&self, address: u64) -> Option<u8> {
        if self.contains(address) {
            Some(self.get(address))
        } else {
            None
        }
    }

    #[tactic(auto, using(s390x_machine::proofs::Reaching::reaches_none, s390x_machine::proofs::Reaching::reaches_next))]
    fn leading_bytes(&self, address: u64, n: u64) -> Option<[u8; 6]> {
        let mut bytes = [0u8; 6];
        for i in 0..n {
            match self.byte_at(address.wrapping_add(i)) {
                Some(byte) => bytes[i as usize] = byte,
                None => return None,
            }
        }
        Some(bytes)
    }

    #[tactic(auto, using(s390x_machine::proofs::Reaching::reaches_none, s390x_machine::proofs::Reaching::reaches_more))]
    fn has_all(&self, address: u64, n: u64) -> bool {
        let mut all = true;
        for i in 0..n {
            all = self.contains(address.wrapping_add(i)) && all;
        }
        all
    }

    #[tactic(auto, using(s390x_machine::proofs::Numbers::number_none, s390x_machine::proofs::Numbers::number_more, s390x_machine::proofs::Reaching::reached_at))]
    fn number(&self, address: u64, n: u64) -> u128 {
        let mut total: u128 = 0;
        for i in 0..n {
            total = total * 256 + u128::from(self.get(address.wrapping_add(i)));
        }
        total
    }

    fn set(&mut self, address: u64, value: u8) {
        let k = (address - self.start) as usize;
        self.bytes[k] = value;
    }

    #[tactic(auto, using(s390x_machine::proofs::Numbers::store_none, s390x_machine::proofs::Numbers::store_more, s390x_machine::proofs::Reaching::reached_at))]
    fn put_number(&mut self, address: u64, n: u64, value: u128) {
        let mut rest = value;
        for i in (0..n).rev() {
            self.set(address.wrapping_add(i), (rest % 256) as u8);
            rest = rest / 256;
        }
    }
}
