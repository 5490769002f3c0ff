// The numbers withdrawn and still free, the latest last: a struct by value, whose methods return the new state. A list has at most 512 calls.
ghost use Rattle.std.specs.Prelude.{◌+◌, ◌-◌, ◌<◌, ◌≤◌, ◌≡◌, length, set};
ghost use Rattle.change_rules.specs.Free.{latest_of, next_of};

#[derive(Clone, Copy)]
pub struct Free {
    pub numbers: [u16; 512],
    pub len: usize,
}

impl Free {
    pub fn new() -> Free
        ensures { (length result.numbers ≡ 512) × (result.len ≡ 0) }
    {
        let numbers = [0u16; 512];
        Free { numbers, len: 0 }
    }

    // With `v` as the latest.
    pub fn push(self, v: u16) -> Free
        requires { (self.len < 512) × (length self.numbers ≡ 512) }
        ensures { (result.numbers ≡ set self.numbers self.len v) × (result.len ≡ self.len + 1) }
    {
        let mut s = self;
        let at = s.len;
        s.numbers[at] = v;
        s.len = at + 1;
        s
    }

    // Without the latest, where there is one.
    pub fn pop(self) -> Free
        ensures { (result.numbers ≡ self.numbers) × (result.len ≡ self.len - 1) }
    {
        let mut s = self;
        if s.len > 0 {
            s.len = s.len - 1;
        }
        s
    }

    // The latest, where there is one.
    pub fn latest(self) -> Option<u16>
        requires { (self.len ≤ 512) × (length self.numbers ≡ 512) }
        ensures { result ≡ latest_of self.numbers self.len }
    {
        self.numbers[..self.len].last().copied()
    }

    // The number of the next lot that is added: the latest, or the one behind the `n` that are known.
    pub fn next(self, n: usize) -> usize
        requires { (self.len ≤ 512) × (length self.numbers ≡ 512) × (n ≤ 1024) }
        ensures { result ≡ next_of self.numbers self.len n }
    {
        match self.latest() {
            Some(number) => usize::from(number),
            None => n + 1,
        }
    }
}
