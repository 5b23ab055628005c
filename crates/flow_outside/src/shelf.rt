ghost use Rattle.std.specs.Prelude.{◌≡◌, ℕ, ◌+◌, ◌<◌, ◌≤◌, List, Option, IfOk, OnOk, OnErr, length};
ghost use Rattle.flow_outside.specs.Causes.{HasCause};
ghost use Rattle.flow_outside.specs.Told.{IfTold};
ghost use Rattle.flow_outside.specs.Files.{Files, bytes_of, IsAbsent};
ghost use Rattle.flow_outside.specs.Readers.{Readers, Lives, OthersStand, Starts, GivesNext, GoesOn, LosesPlace, name_of, left_of};

use crate::failure::Failed;

/// Files to read, each under a name, through readers that are known by number. At most 80 readers
/// live at once.
///
/// A shelf that tells says of each name that its file has these bytes, or that no file has the name.
/// No call changes what is told. A count of faults is kept for each name; it never falls.
pub trait Shelf: Drop {
    /// The files, where told.
    ghost told: { Self → Option Files };

    /// The reader of each number, where one lives.
    ghost readers: { Self → Readers };

    /// How many readers live.
    ghost living: { Self → ℕ };

    /// The count of faults at each name.
    ghost faults_at: { Self → List ℕ → ℕ };

    /// Starts a reader at the first byte of `name`, and gives its number. Where the shelf tells, it
    /// fails at a name that no file has, and what a reader has left is told.
    fn open(&mut self, name: &str) -> Result<u32, Failed>
        requires { living self.old < 80 }
        ensures tells { told self.new ≡ told self.old }
        ensures later { (k : List ℕ) → faults_at self.old k ≤ faults_at self.new k }
        ensures cause { HasCause (faults_at self.old name.now) (faults_at self.new name.now) result }
        ensures started { IfOk result
            (λ id. Starts (readers self.old) (readers self.new) name.now (bytes_of (told self.old) name.now) id
            × (living self.new ≡ living self.old + 1)) }
        ensures absent { OnOk result (¬ IsAbsent (told self.old) name.now) }
        ensures refused { OnErr result
            ((readers self.new ≡ readers self.old) × (living self.new ≡ living self.old)) };

    /// Reads the next bytes of reader `id` into the front of `into`, and gives their number. An
    /// answer of 0 ends the reader; where the bytes are told, it comes exactly at their end. After
    /// `Failed` the reader lives and its place is open.
    fn read(&mut self, id: u32, into: &mut [u8]) -> Result<usize, Failed>
        requires lives { Lives (readers self.old) id }
        requires room { 0 < length into.old }
        ensures tells { told self.new ≡ told self.old }
        ensures later { (k : List ℕ) → faults_at self.old k ≤ faults_at self.new k }
        ensures cause { let name = name_of (readers self.old id) in
            HasCause (faults_at self.old name) (faults_at self.new name) result }
        ensures others { OthersStand (readers self.old) (readers self.new) id }
        ensures within { IfOk result (λ count. count ≤ length into.old) }
        ensures given { IfOk result
            (λ count. IfTold (left_of (readers self.old id)) (λ rest. GivesNext rest into.new count)) }
        ensures goes_on { IfOk result
            (λ count. GoesOn (readers self.old id) (readers self.new id) (living self.old) (living self.new) count) }
        ensures refused { OnErr result
            (LosesPlace (readers self.old id) (readers self.new id) × (living self.new ≡ living self.old)) };

    /// The count of faults at `name`.
    fn faults(&self, name: &str) -> u64
        ensures { result ≡ faults_at self.now name.now };
}
