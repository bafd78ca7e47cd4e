// A part's description, its two areas of flash with their blocks and pages, and the judgement of a range:
// document 01, "The part", and the range rule of "Commands". The refusals stand in `refusal`.
#![tactic(auto)]

ghost use Rattle.std.specs.Prelude.{◌≡◌, true, ◌≤◌};
ghost use Rattle.part.specs.Part.{described, blocks, first, block_size, page_size, pages, size, last_of, lies_in, place_in, place_of, whole_blocks, stretch, range_of};

pub mod rate;
pub mod refusal;
pub mod signature;

// The three numbers are wide enough that none handed in wraps into range, and narrow enough that no address computed from them wraps.
#[derive(Clone, Copy)]
pub struct Part {
    pub code_blocks: u32,
    pub data_blocks: u32,
    pub clock: u32,
    pub device: [u8; 3],
    pub name: [u8; 10],
    pub version: [u8; 3],
}

#[derive(Clone, Copy, Debug, PartialEq, Eq)]
pub enum Area {
    CodeFlash,
    DataFlash,
}

// Where an address lies: its area, its offset there, the number of its block in the area and of its page in the block.
#[derive(Clone, Copy)]
pub struct Place {
    pub area: Area,
    pub offset: usize,
    pub block: usize,
    pub page: usize,
}

// A good range has its area, the number of its first block there, and how many blocks it is long.
#[derive(Clone, Copy)]
pub struct Range {
    pub area: Area,
    pub block: usize,
    pub count: usize,
}

impl Area {
    pub fn first(self) -> usize
        ensures { result ≡ first self }
    {
        match self {
            Area::CodeFlash => 0x00000,
            Area::DataFlash => 0xF1000,
        }
    }
}

pub fn page_size() -> usize
    ensures { result ≡ page_size }
{
    256
}

impl Part {
    // The test of refusal 1, as far as it concerns the part.
    pub fn is_described(self) -> bool
        ensures { result ≡ described self }
    {
        (8..=64).contains(&self.code_blocks)
            && (0..=8).contains(&self.data_blocks)
            && (1..=32).contains(&self.clock)
    }

    pub fn blocks(self, area: Area) -> usize
        ensures { result ≡ blocks self area }
    {
        match area {
            Area::CodeFlash => self.code_blocks as usize,
            Area::DataFlash => self.data_blocks as usize,
        }
    }

    pub fn block_size(self, area: Area) -> usize
        ensures { result ≡ block_size self area }
    {
        1024
    }

    pub fn pages(self, area: Area) -> usize
        ensures { result ≡ pages self area }
    {
        self.block_size(area) / page_size()
    }

    // The bytes of an area.
    pub fn size(self, area: Area) -> usize
        ensures { result ≡ size self area }
    {
        self.blocks(area) * self.block_size(area)
    }

    // The last address of an area, where it has blocks.
    pub fn last(self, area: Area) -> Option<usize>
        ensures { result ≡ last_of self area }
    {
        let size = self.size(area);
        if size == 0 {
            return None;
        }
        Some(area.first() + size - 1)
    }

    fn lies_in(self, area: Area, address: usize) -> bool
        ensures { result ≡ lies_in self area address }
    {
        let first = area.first();
        first <= address && address < first + self.size(area)
    }

    fn place_in(self, area: Area, address: usize) -> Option<Place>
        requires { lies_in self area address ≡ true }
        ensures { result ≡ place_in self area address }
    {
        let offset = address - area.first();
        let size = self.block_size(area);
        Some(Place {
            area,
            offset,
            block: offset / size,
            page: offset % size / page_size(),
        })
    }

    pub fn place(self, address: usize) -> Option<Place>
        ensures { result ≡ place_of self address }
    {
        if self.lies_in(Area::CodeFlash, address) {
            return self.place_in(Area::CodeFlash, address);
        }
        if self.lies_in(Area::DataFlash, address) {
            return self.place_in(Area::DataFlash, address);
        }
        None
    }

    fn is_whole_blocks(self, area: Area, start: usize, end: usize) -> bool
        ensures { result ≡ whole_blocks self area start end }
    {
        let first = area.first();
        let size = self.block_size(area);
        self.lies_in(area, start)
            && self.lies_in(area, end)
            && (start - first) % size == 0
            && (end + 1 - first) % size == 0
    }

    fn stretch(self, area: Area, start: usize, end: usize) -> Option<Range>
        requires { (whole_blocks self area start end ≡ true) × (start ≤ end) }
        ensures { result ≡ stretch self area start end }
    {
        let first = area.first();
        let size = self.block_size(area);
        let block = (start - first) / size;
        Some(Range {
            area,
            block,
            count: (end - first) / size + 1 - block,
        })
    }

    pub fn range(self, start: usize, end: usize) -> Option<Range>
        ensures { result ≡ range_of self start end }
    {
        if end < start {
            return None;
        }
        if self.is_whole_blocks(Area::CodeFlash, start, end) {
            return self.stretch(Area::CodeFlash, start, end);
        }
        if self.is_whole_blocks(Area::DataFlash, start, end) {
            return self.stretch(Area::DataFlash, start, end);
        }
        None
    }
}
