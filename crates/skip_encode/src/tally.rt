//! A count of a content's parts. A content's width follows from this count, so the content needn't be written first.

ghost use Rattle.std.specs.Prelude.{◌≡◌, ◌+◌, ◌-◌, ◌<◌, ◌≤◌, [], Err, IfOk, OnOk, length};
ghost use Rattle.acl_model.specs.Width.{least_width, binary_length};
ghost use Rattle.skip_encode.specs.declared.measure_fault.MeasureFault.TheVariants as fault;
ghost use Rattle.skip_encode.specs.inside.Tallies.{IsSmall, tally_of, with_text, with_element, laid_size, laid_length};

use crate::heads::binary_length;
use crate::measure_fault::MeasureFault;
use crate::measures::Measure;
use acl_bits::Row;

/// The greatest length in bytes that a dictionary section and a tree section may have together.
pub(crate) const LIMIT: u64 = 33_554_432;

/// The parts of a content that were counted so far.
#[derive(Debug, Drop)]
pub(crate) struct Tally {
    /// The number of bytes, without those of the children's heads.
    pub(crate) plain: u64,
    /// The number of child elements without element children.
    pub(crate) leaves: u64,
    /// The number of child elements with element children.
    pub(crate) inners: u64,
    /// The numbers of the names of the elements counted, and of those inside them.
    pub(crate) members: Row,
}

impl Tally {
    /// Counts no parts yet. `plain` bytes of the content come before the parts.
    pub(crate) fn new(plain: u64) -> Tally
        ensures { result ≡ tally_of plain [] }
    {
        Tally {
            plain,
            leaves: 0,
            inners: 0,
            members: Row::none(),
        }
    }

    /// Counts a text.
    pub(crate) fn add_text(&mut self, text: &[u8]) -> Result<(), MeasureFault>
        requires { IsSmall self.old }
        ensures added { OnOk result (self.new ≡ with_text (length text.now) self.old) }
        ensures small { OnOk result (IsSmall self.new) }
        ensures large { result ≡ Err fault.TooLarge
            → 33554432 < (with_text (length text.now) self.old).plain }
    {
        self.plain = within_limit(self.plain, text.len() as u64 + 4)?;
        Ok(())
    }

    /// Counts an element.
    pub(crate) fn add_element(&mut self, element: &Measure) -> Result<(), MeasureFault>
        requires small { IsSmall self.old }
        requires counted { 2 ≤ element.now.long }
        requires tag { element.now.tag < 256 }
        ensures added { OnOk result (self.new ≡ with_element element.now self.old) }
        ensures small { OnOk result (IsSmall self.new) }
        ensures large { result ≡ Err fault.TooLarge
            → 33554432 < (with_element element.now self.old).plain }
    {
        self.plain = within_limit(self.plain, u64::from(element.long))?;
        if element.below.count() == 0 {
            self.leaves += 1;
        } else {
            self.inners += 1;
        }
        self.members.put(element.tag);
        self.members.join(&element.below);
        Ok(())
    }

    /// The length in bytes of the counted content.
    pub(crate) fn length(&self) -> Result<u32, MeasureFault>
        requires { IsSmall self.now }
        ensures length { IfOk result (λ long.
            long ≡ laid_length (length self.now.members) self.now) }
        ensures small { IfOk result (λ long. long ≤ 33554432) }
        ensures large { result ≡ Err fault.TooLarge
            → 33554432 < laid_length (length self.now.members) self.now }
    {
        let long = self.length_within(self.members.count());
        if long > LIMIT {
            return Err(MeasureFault::TooLarge);
        }
        Ok(long as u32)
    }

    /// The length in bytes of the counted parts where their parent has `members` members.
    pub(crate) fn length_within(&self, members: u16) -> u64
        requires small { IsSmall self.now }
        requires members { members ≤ 256 }
        ensures { result ≡ laid_length members self.now }
    {
        let digits = binary_length(u32::from(members.saturating_sub(1)));
        self.bytes(members, digits, self.width(members, digits))
    }

    /// The least width in which the length of the counted parts fits.
    fn width(&self, members: u16, digits: u32) -> u32
        requires small { IsSmall self.now }
        requires members { members ≤ 256 }
        requires digits { digits ≡ binary_length (members - 1) }
        ensures width { result ≡ least_width (laid_size members self.now) }
        ensures few { result ≤ 32 }
    {
        let mut w = binary_length(self.plain as u32);
        while self.bytes(members, digits, w) >= 1 << w {
            w += 1;
        }
        w
    }

    /// The length in bytes of the counted parts, with heads of width `w`.
    fn bytes(&self, members: u16, digits: u32, w: u32) -> u64
        requires small { IsSmall self.now }
        requires members { members ≤ 256 }
        requires digits { digits ≡ binary_length (members - 1) }
        requires width { w ≤ 32 }
        ensures { result ≡ laid_size members self.now w }
    {
        let prefix = 1 + u64::from(digits);
        let leaf = (prefix + (1 + u64::from(w)) + 7) / 8;
        let inner = (prefix + (1 + u64::from(members) + u64::from(w)) + 7) / 8;
        self.plain + (self.leaves * leaf + self.inners * inner)
    }
}

/// Returns the sum, or `TooLarge` where it is above the limit.
pub(crate) fn within_limit(bytes: u64, more: u64) -> Result<u64, MeasureFault>
    requires { bytes ≤ 33554432 }
    ensures sum { IfOk result (λ sum. sum ≡ bytes + more) }
    ensures small { IfOk result (λ sum. sum ≤ 33554432) }
    ensures large { result ≡ Err fault.TooLarge → 33554432 < bytes + more }
{
    if more > LIMIT - bytes {
        return Err(MeasureFault::TooLarge);
    }
    Ok(bytes + more)
}
