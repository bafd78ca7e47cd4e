// The collector, by value: what has come of the frame that is awaited. Document 01, "Frames", "Collecting".
ghost use Rattle.std.specs.Prelude.{◌≡◌, ◌<◌};
ghost use Rattle.frame.specs.Collector.{added, add_of, adding, collecting, fresh, byte_of, dropped};
ghost use Rattle.frame.specs.Inner.Collector.{stored};

// The bytes past `len` are spare: no method touches them.
#[derive(Clone, Copy)]
pub struct Collector {
    pub bytes: [u8; 260],
    pub len: usize,
}

impl Collector {
    #[tactic(auto, unfolding(crate::specs::Collector::fresh))]
    pub fn new() -> Collector
        ensures { result ≡ fresh }
    {
        Collector {
            bytes: [0u8; 260],
            len: 0,
        }
    }

    // As it was handed in.
    pub fn restored(bytes: [u8; 260], len: usize) -> Collector
        ensures { result ≡ collecting bytes len }
    {
        Collector { bytes, len }
    }

    #[tactic(auto, unfolding(crate::specs::Inner::Collector::stored))]
    fn put(mut self, b: u8) -> Collector
        requires { self.len < 260 }
        ensures { result ≡ stored self b }
    {
        self.bytes[self.len] = b;
        self.len += 1;
        self
    }

    #[tactic(auto, using(crate::proofs::Laws::Collector::ways))]
    pub fn byte(self, header: super::Header, b: u8) -> Collector
        ensures { result ≡ byte_of self header b }
    {
        if self.len == 0 && b != header.byte() {
            return self;
        }
        if super::is_full(self.len, self.bytes[1]) {
            return self;
        }
        self.put(b)
    }

    // A byte that is only added. The caller lends an array for the work: one of this function's own would be copied once more (docs/BENCH.md).
    #[tactic(auto, using(crate::proofs::Laws::Collector::adding_one), unfolding(crate::specs::Inner::Collector::stored))]
    pub fn add(self, b: u8, work: &mut [u8; 260]) -> Collector
        ensures { adding result work.new ≡ add_of self b }
    {
        let old = self.bytes;
        *work = old;
        if self.len < 260 {
            work[self.len] = b;
            let bytes = *work;
            return Collector {
                bytes,
                len: self.len + 1,
            };
        }
        self
    }

    // Bytes that are only added, at once.
    pub fn add_all(mut self, s: &[u8]) -> Collector
        ensures { result ≡ added self s.now }
    {
        let at = self.len;
        match lent::put(&mut self.bytes, at, s) {
            Ok(()) => self.len = at + s.len(),
            Err(_) => {}
        }
        self
    }

    #[tactic(auto, unfolding(crate::specs::Collector::dropped, crate::specs::Collector::holding))]
    pub fn gap(self) -> Collector
        ensures { result ≡ dropped self }
    {
        Collector { len: 0, ..self }
    }

    pub fn power_on(self) -> Collector
        ensures { result ≡ dropped self }
    {
        self.gap()
    }
}
