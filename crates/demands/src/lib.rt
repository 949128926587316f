//! What the chip's users ask of it, over the definitions of the crates below. There is no code here: each function's clauses are theorems, which
//! the check proves.
#![tactic(auto)]

ghost use Rattle.std.specs.Prelude.{◌≡◌, Bool, true, List, ℕ, ◌+◌, ◌/◌, ◌%◌, ◌≤◌, ◌<◌, length, replicate, Result, Ok};
ghost use Rattle.refusals.specs.declared.Refusal.{Refusal};
ghost use Rattle.refusals.specs.Numbers.{answer_number};
ghost use Rattle.fields.specs.declared.Mode.{Mode};
ghost use Rattle.fields.specs.Modes.{mode_of};
ghost use Rattle.times.specs.declared.Time.{Time};
ghost use Rattle.times.specs.Times.{century, is_time, later};
ghost use Rattle.times.specs.Calls.{decoded, encoded, encoding_of};
ghost use Rattle.chip.specs.declared.Chip.{Chip};
ghost use Rattle.chip.specs.declared.Levels.{Levels};
ghost use Rattle.chip.specs.Chips.{location, fresh, ticked};
ghost use Rattle.chip.specs.Rules.{Rules};
ghost use Rattle.chip.specs.Calls.{ReadResult, Outcome, read_byte, read, write, run, pins, lines};
ghost use Rattle.saved.specs.Record.{record_of};
ghost use Rattle.saved.specs.Calls.{load, save, saving_of};
ghost use Rattle.mc146818.specs.Words.{host_of};
ghost use Rattle.mc146818.specs.Calls as host;
ghost use Rattle.demands.specs.Table.{HostCall, encodes, answer_of, first, rows_of, chip_before, chip_after, LendsBytes, IsRefused};
ghost use Rattle.demands.specs.Events.{Event, after_all, accepted_ticks, last_accepted, time_shown, seconds_shown, ShowsATime, NoneSetsTheTime, updates, midnights, KeepsTime, TimeWasKept};
ghost use Rattle.demands.specs.HostEvents.{host_after_all, AreBytes};
ghost use Rattle.demands.specs.Saving.{Holds, FitsAt, saved_at};
ghost use Rattle.demands.specs.Released.{released};

// ---- refusals

/// Every refusal follows the table. The answer of a C host's call is the first row of the call's table that applies, and 0 where none does. A refused
/// call changes neither the chip's bytes nor the page, and the whole buffer of a refused encode becomes zeros.
#[tactic(auto, using(crate::proofs::Demand1::table))]
pub fn refusals_follow_the_table()
    ensures answer { (call : HostCall) → LendsBytes call → answer_of call ≡ first (rows_of call) }
    ensures unchanged { (call : HostCall) → LendsBytes call → IsRefused call → chip_after call ≡ chip_before call }
    ensures zeros { (bytes : List ℕ) (seconds weekday mode : ℕ) → IsRefused (encodes bytes seconds weekday mode) → (host.encode bytes seconds weekday mode).bytes ≡ replicate (length bytes) 0 }
{}

// ---- what goes round comes back

/// A time that is turned into bytes is read from them again, in every data mode and hour mode; and bytes that were read as a time are written again for it.
#[tactic(auto, using(crate::proofs::Demand2::time_round_trip))]
pub fn times_survive_bytes()
    ensures read_again { (mode : Mode) (time : Time) (buffer : List ℕ) → length buffer ≡ 7 → is_time time ≡ true → decoded mode (encoded mode time buffer).bytes ≡ Ok time }
    ensures written_again { (mode : Mode) (bytes buffer : List ℕ) (time : Time) → length buffer ≡ 7 → decoded mode bytes ≡ Ok time → encoded mode time buffer ≡ encoding_of (Ok tt) bytes }
{}

/// A chip that is saved anywhere in a page with room is loaded from there as it was.
#[tactic(auto, using(crate::proofs::Demand2::save_then_load_is_the_same_chip))]
pub fn chips_survive_saving()
    ensures saved { (chip : Chip) (page : List ℕ) (offset : ℕ) → Rules chip → FitsAt offset page → (save chip page offset).answer ≡ Ok tt }
    ensures loaded { (chip : Chip) (page : List ℕ) (offset : ℕ) → Rules chip → FitsAt offset page → Holds (saved_at offset (save chip page offset).page) chip }
{}

/// A chip that is stored is loaded as it was; bytes that load are stored again as they were, and only chips that keep the record rules come out of them.
#[tactic(auto, using(saved::proofs::Laws::Calls::store_then_load, saved::proofs::Laws::Calls::load_then_store))]
pub fn chips_survive_storing()
    ensures loaded { (chip : Chip) → Rules chip → Holds (record_of chip) chip }
    ensures stored { (bytes : List ℕ) (chip : Chip) → AreBytes bytes → Holds bytes chip → record_of chip ≡ bytes }
    ensures rules { (bytes : List ℕ) (chip : Chip) → AreBytes bytes → Holds bytes chip → Rules chip }
{}

// ---- time and RAM are kept

/// A chip that keeps time goes on keeping it through any runs, reads, pin levels and writes to the alarm or user RAM, refused ones among them. It shows the
/// time that it showed at first, as many seconds later as the tick formula counts updates, round the century; the weekday is as many days on as
/// midnights were passed. Each user RAM location has the byte of the last write that was accepted there, or its first.
#[tactic(auto, using(crate::proofs::Demand3::kept))]
pub fn time_is_kept()
    ensures time { (start : Chip) (events : List Event) → KeepsTime start → NoneSetsTheTime events → time_shown (after_all events start) ≡ later (updates start events) (time_shown start) }
    ensures seconds { (start : Chip) (events : List Event) → KeepsTime start → NoneSetsTheTime events → seconds_shown (after_all events start) ≡ (seconds_shown start + updates start events) % century }
    ensures weekday { (start : Chip) (events : List Event) → KeepsTime start → NoneSetsTheTime events → (time_shown (after_all events start)).weekday ≡ ((time_shown start).weekday + 6 + midnights start events) % 7 + 1 }
    ensures valid { (start : Chip) (events : List Event) → KeepsTime start → NoneSetsTheTime events → ShowsATime (after_all events start) }
    ensures mode { (start : Chip) (events : List Event) → KeepsTime start → NoneSetsTheTime events → mode_of (after_all events start).regs.b ≡ mode_of start.regs.b }
    ensures ram { (start : Chip) (events : List Event) → KeepsTime start → NoneSetsTheTime events → (address : ℕ) → 14 ≤ address → address < 64 → location (after_all events start) address ≡ last_accepted address (location start address) start events }
{}

/// The 72 bytes that a C host holds follow the chip in them: after any calls they hold the chip that the same events leave. So time is kept in them too.
#[tactic(auto, using(crate::proofs::Demand3::bytes_follow_the_chip))]
pub fn bytes_follow_the_chip()
    ensures holds { (bytes : List ℕ) (chip : Chip) (events : List Event) → AreBytes bytes → Holds bytes chip → Holds (host_after_all events bytes) (after_all events chip) }
    ensures time { (bytes : List ℕ) (start now : Chip) (events : List Event) → AreBytes bytes → Holds bytes start → KeepsTime start → NoneSetsTheTime events → Holds (host_after_all events bytes) now → TimeWasKept start now events }
{}

/// A chip that was just released on the 32.768 kHz base keeps time. Its first two updates end with ticks 16,457 and 49,225 and not a tick before, and so on
/// each 32,768 ticks, through any events that leave the time to the ticks.
#[tactic(auto, using(crate::proofs::WrongClocks::shown))]
pub fn first_updates_end_at_16457_and_49225()
    ensures keeps_time { KeepsTime released }
    ensures every_second { (events : List Event) → NoneSetsTheTime events → seconds_shown (after_all events released) ≡ (accepted_ticks events + 16311) / 32768 % century }
    ensures no_tick_before { seconds_shown (run released 16456).chip ≡ 0 }
    ensures first { seconds_shown (run released 16457).chip ≡ 1 }
    ensures none_between { seconds_shown (run released 49224).chip ≡ 1 }
    ensures second { seconds_shown (run released 49225).chip ≡ 2 }
{}

// ---- what the chip is not

/// It is no clock that refuses everything, gives the same byte always, ignores writes, stands still, or makes all updates of a run on the first tick.
#[tactic(auto, using(crate::proofs::WrongClocks::refuted))]
pub fn wrong_clocks_are_refuted()
    ensures refuses_everything { ((chip : Chip) (address : ℕ) → 0 < answer_number (read chip address).answer) → ⊥ }
    ensures gives_a_fixed_byte { (byte : ℕ) → ((chip : Chip) (address : ℕ) → read_byte (read chip address).answer ≡ byte) → ⊥ }
    ensures ignores_writes { ((chip : Chip) (address value : ℕ) → read_byte (read (write chip address value).chip address).answer ≡ read_byte (read chip address).answer) → ⊥ }
    ensures stands_still { ((chip : Chip) (n : ℕ) → seconds_shown (run chip n).chip ≡ seconds_shown chip) → ⊥ }
    ensures updates_on_the_first_tick { ((chip : Chip) (n : ℕ) → seconds_shown (run chip 1).chip ≡ seconds_shown (run chip n).chip) → ⊥ }
{}

// ---- no answer is left open

/// Two results that the contract of one of a C host's calls allows for the same input are equal: `v` and `w` are the words, `k` and `l` the bytes that are
/// left.
#[tactic(auto, using(crate::proofs::Strength::host_results))]
pub fn host_results_are_determined()
    ensures fresh { (k l : List ℕ) → k ≡ record_of fresh → l ≡ record_of fresh → k ≡ l }
    ensures read { (bytes : List ℕ) (address v w : ℕ) (k l : List ℕ) → host_of v k ≡ host.read bytes address → host_of w l ≡ host.read bytes address → (v ≡ w) × (k ≡ l) }
    ensures write { (bytes : List ℕ) (address value v w : ℕ) (k l : List ℕ) → host_of v k ≡ host.write bytes address value → host_of w l ≡ host.write bytes address value → (v ≡ w) × (k ≡ l) }
    ensures run { (bytes : List ℕ) (ticks v w : ℕ) (k l : List ℕ) → host_of v k ≡ host.run bytes ticks → host_of w l ≡ host.run bytes ticks → (v ≡ w) × (k ≡ l) }
    ensures pins { (bytes : List ℕ) (levels v w : ℕ) (k l : List ℕ) → host_of v k ≡ host.pins bytes levels → host_of w l ≡ host.pins bytes levels → (v ≡ w) × (k ≡ l) }
    ensures lines { (bytes : List ℕ) (v w : ℕ) → host_of v bytes ≡ host.lines bytes → host_of w bytes ≡ host.lines bytes → v ≡ w }
    ensures load { (bytes input : List ℕ) (v w : ℕ) (k l : List ℕ) → host_of v k ≡ host.load bytes input → host_of w l ≡ host.load bytes input → (v ≡ w) × (k ≡ l) }
    ensures save { (bytes page : List ℕ) (offset v w : ℕ) (k l : List ℕ) → host_of v k ≡ host.save bytes page offset → host_of w l ≡ host.save bytes page offset → (v ≡ w) × (k ≡ l) }
    ensures decode { (bytes : List ℕ) (mode v w : ℕ) → v ≡ host.decode bytes mode → w ≡ host.decode bytes mode → v ≡ w }
    ensures encode { (bytes : List ℕ) (seconds weekday mode v w : ℕ) (k l : List ℕ) → host_of v k ≡ host.encode bytes seconds weekday mode → host_of w l ≡ host.encode bytes seconds weekday mode → (v ≡ w) × (k ≡ l) }
{}

/// The same of the library's calls on the 72 bytes: `x` and `y` are the answers, `k` and `l` the bytes or the page that is left.
#[tactic(auto, using(crate::proofs::Strength::byte_results))]
pub fn results_on_bytes_are_determined()
    ensures read { (bytes k l : List ℕ) (address : ℕ) (x y : Result ℕ Refusal) → x ≡ host.read_answer bytes address → y ≡ host.read_answer bytes address → k ≡ host.read_bytes bytes address → l ≡ host.read_bytes bytes address → (x ≡ y) × (k ≡ l) }
    ensures write { (bytes k l : List ℕ) (address value : ℕ) (x y : Result (Unit {0}) Refusal) → x ≡ host.write_answer bytes address value → y ≡ host.write_answer bytes address value → k ≡ host.write_bytes bytes address value → l ≡ host.write_bytes bytes address value → (x ≡ y) × (k ≡ l) }
    ensures run { (bytes k l : List ℕ) (ticks : ℕ) (x y : Result (Unit {0}) Refusal) → x ≡ host.run_answer bytes ticks → y ≡ host.run_answer bytes ticks → k ≡ host.run_bytes bytes ticks → l ≡ host.run_bytes bytes ticks → (x ≡ y) × (k ≡ l) }
    ensures pins { (bytes k l : List ℕ) (levels : ℕ) (x y : Result (Unit {0}) Refusal) → x ≡ host.pins_answer bytes → y ≡ host.pins_answer bytes → k ≡ host.pins_bytes bytes levels → l ≡ host.pins_bytes bytes levels → (x ≡ y) × (k ≡ l) }
    ensures lines { (bytes : List ℕ) (x y : Result Levels Refusal) → x ≡ host.lines_answer bytes → y ≡ host.lines_answer bytes → x ≡ y }
    ensures load { (bytes input k l : List ℕ) (x y : Result (Unit {0}) Refusal) → x ≡ host.load_answer input → y ≡ host.load_answer input → k ≡ host.load_bytes bytes input → l ≡ host.load_bytes bytes input → (x ≡ y) × (k ≡ l) }
    ensures save { (bytes page k l : List ℕ) (offset : ℕ) (x y : Result (Unit {0}) Refusal) → x ≡ host.save_answer bytes page offset → y ≡ host.save_answer bytes page offset → k ≡ host.save_page bytes page offset → l ≡ host.save_page bytes page offset → (x ≡ y) × (k ≡ l) }
{}

/// The same of the calls on a chip by value, on a saved chip and on a time.
#[tactic(auto, using(crate::proofs::Strength::results))]
pub fn results_are_determined()
    ensures fresh { (x y : Chip) → x ≡ fresh → y ≡ fresh → x ≡ y }
    ensures read { (chip : Chip) (address : ℕ) (x y : ReadResult) → x ≡ read chip address → y ≡ read chip address → x ≡ y }
    ensures write { (chip : Chip) (address value : ℕ) (x y : Outcome) → x ≡ write chip address value → y ≡ write chip address value → x ≡ y }
    ensures run { (chip : Chip) (n : ℕ) (x y : Outcome) → x ≡ run chip n → y ≡ run chip n → x ≡ y }
    ensures tick { (chip x y : Chip) → x ≡ ticked chip → y ≡ ticked chip → x ≡ y }
    ensures pins { (chip : Chip) (reset ps : Bool) (x y : Chip) → x ≡ pins chip reset ps → y ≡ pins chip reset ps → x ≡ y }
    ensures lines { (chip : Chip) (x y : Levels) → x ≡ lines chip → y ≡ lines chip → x ≡ y }
    ensures load { (bytes : List ℕ) (x y : Result Chip Refusal) → x ≡ load bytes → y ≡ load bytes → x ≡ y }
    ensures save { (chip : Chip) (page : List ℕ) (offset : ℕ) (v w : Result (Unit {0}) Refusal) (k l : List ℕ) → saving_of v k ≡ save chip page offset → saving_of w l ≡ save chip page offset → (v ≡ w) × (k ≡ l) }
    ensures decode { (mode : Mode) (bytes : List ℕ) (x y : Result Time Refusal) → x ≡ decoded mode bytes → y ≡ decoded mode bytes → x ≡ y }
    ensures encode { (mode : Mode) (time : Time) (bytes : List ℕ) (v w : Result (Unit {0}) Refusal) (k l : List ℕ) → encoding_of v k ≡ encoded mode time bytes → encoding_of w l ≡ encoded mode time bytes → (v ≡ w) × (k ≡ l) }
{}
