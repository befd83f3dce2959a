//! Memory, as the machine sees it.
ghost use Rattle.std.specs.Prelude.{◌≡◌, ℕ, Bool, true, false, if◌then◌else◌, ◌<◌, ◌≤◌, ◌^◌, IsTrue, MatchOption};
ghost use Rattle.s390x_operations.specs.State.{bytes_to, number_at, reaches, update, write_get};
ghost use Rattle.s390x_machine.specs.State.{AreBytes};

/// Bytes at accessible addresses.
pub trait Memory {
    /// Whether an address is accessible.
    ghost held: { Self → ℕ → Bool };

    /// The byte at an address.
    ghost byte: { Self → ℕ → ℕ };

    /// Whether the address is accessible.
    fn has(&self, address: u64) -> bool
        ensures { result ≡ held self.now address };

    /// The byte at an accessible address.
    fn get(&self, address: u64) -> u8
        requires { IsTrue (held self.now address) }
        ensures { result ≡ byte self.now address };

    /// The byte at an address; `None` exactly where it isn't accessible.
    fn byte_at(&self, address: u64) -> Option<u8>
        ensures { MatchOption result (held self.now address ≡ false)
            (λ b. (held self.now address ≡ true) × (b ≡ byte self.now address)) };

    /// So many bytes from an address on, at most six; `None` exactly where one of them isn't accessible.
    fn leading_bytes(&self, address: u64, n: u64) -> Option<[u8; 6]>
        requires { n ≤ 6 }
        ensures { MatchOption result (reaches (held self.now) address n ≡ false)
            (λ bytes. AreBytes (held self.now) (byte self.now) address n bytes) };

    /// Whether so many bytes from an address on are accessible.
    fn has_all(&self, address: u64, n: u64) -> bool
        ensures { result ≡ reaches (held self.now) address n };

    /// The number in so many accessible bytes from an address on, at most 16, the most significant first.
    fn number(&self, address: u64, n: u64) -> u128
        requires few { n ≤ 16 }
        requires there { IsTrue (reaches (held self.now) address n) }
        ensures value { result ≡ number_at (byte self.now) address n }
        ensures below { result < 256 ^ n };

    /// The number in so many bytes from an address on, at most 8, the most significant first; `None` exactly where one of them isn't accessible.
    #[tactic(auto, using(crate::proofs::Numbers::room))]
    fn reached_number(&self, address: u64, n: u64) -> Option<u64>
        requires { n ≤ 8 }
        ensures { MatchOption result (reaches (held self.now) address n ≡ false)
            (λ x. (reaches (held self.now) address n ≡ true)
            × (x ≡ number_at (byte self.now) address n)) }
    {
        if !self.has_all(address, n) {
            return None;
        }
        Some(self.number(address, n) as u64)
    }

    /// The byte at an accessible address becomes this one; every other byte and what is accessible stay.
    fn set(&mut self, address: u64, value: u8)
        requires { IsTrue (held self.old address) }
        ensures same { held self.new ≡ held self.old }
        ensures written { byte self.new ≡ update (byte self.old) address value };

    /// So many accessible bytes from an address on become the low bytes of a number, the most significant first; every other byte and what is
    /// accessible stay.
    fn put_number(&mut self, address: u64, n: u64, value: u128)
        requires { IsTrue (reaches (held self.old) address n) }
        ensures same { held self.new ≡ held self.old }
        ensures written { byte self.new ≡ write_get (bytes_to address n value) (byte self.old) };

    /// What `put_number` does where so many bytes from an address on are accessible; `false` exactly where one of them isn't, and then every byte
    /// stays.
    fn put_reached(&mut self, address: u64, n: u64, value: u128) -> bool
        ensures reached { result ≡ reaches (held self.old) address n }
        ensures same { held self.new ≡ held self.old }
        ensures written { byte self.new
            ≡ (if result then write_get (bytes_to address n value) (byte self.old)
            else byte self.old) }
    {
        if !self.has_all(address, n) {
            return false;
        }
        self.put_number(address, n, value);
        true
    }
}
