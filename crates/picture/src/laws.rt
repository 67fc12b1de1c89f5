//! Laws of bands and of lanes. The functions run nothing: the contract of each is its law.
ghost use Rattle.std.specs.Prelude.{◌≡◌, ℕ, ◌+◌, ◌-◌, ◌<◌, ◌≤◌, [], List, Option, None, true, unwrap_or};
ghost use Rattle.picture.specs.Pane.{Pane, IsPane};
ghost use Rattle.picture.specs.Words.{Shape, Going, bands_from, bunched, AreEarly, no_shapes, ClassLane, drawn, AreBands, AreLongKept, IsLaneOf, IsPiece, Joins, is_mixed, piece_of, pixel_of, pixel_to, push_shapes};

/// Where drawing begins there are no bands, and from one moment to another they go on as the longest times for which
/// the class is open.
pub fn bands_law()
    ensures begin { (masks : ℕ → ℕ) (class start : ℕ) →
        AreBands masks class start start (record { since = None; bands = [] }) }
    ensures onward { (masks : ℕ → ℕ) (class start m n : ℕ) (g : Going) →
        AreBands masks class start m g →
        AreBands masks class start (m + n) (bands_from masks class m n g) }
{}

/// Bands up to a moment are those of the masks before it: what comes later, as the masks of another command, changes
/// none.
pub fn later_masks_law()
    ensures { (old new : ℕ → ℕ) (class start m : ℕ) (g : Going) →
        ((k : ℕ) → k < m → old k ≡ new k) → AreBands old class start m g →
        AreBands new class start m g }
{}

/// What is drawn in two parts is drawn in one, and masks that agree draw the same: however often and however far gates
/// go on, the lanes of a run are those of its masks.
pub fn drawn_law()
    ensures both { (masks : ℕ → ℕ) (class m n k : ℕ) (c : ClassLane) →
        drawn masks class (m + n) k (drawn masks class m n c) ≡ drawn masks class m (n + k) c }
    ensures same { (old new : ℕ → ℕ) (class m n : ℕ) (c : ClassLane) →
        ((i : ℕ) → m ≤ i → i < m + n → old i ≡ new i) →
        drawn old class m n c ≡ drawn new class m n c }
{}

/// Shapes that are put into a lane, one after another, are there, with neighbours joined at the gap that the lane has
/// at last.
pub fn lane_law()
    ensures { (shapes : List Shape) → AreEarly shapes →
        IsLaneOf shapes (push_shapes shapes no_shapes) }
{}

/// What joining neighbours does to shapes.
pub fn join_law()
    ensures { (gap : ℕ) (shapes : List Shape) → Joins gap shapes }
{}

/// Where there are too many bands, one that is as long as a pixel of the widest picture stays as it is.
pub fn bunch_law()
    ensures { (upto : ℕ) (bands : List Shape) →
        AreLongKept (pixel_to upto bands) bands (bunched upto bands) }
{}

/// Where not each change of the gates is looked at, a class is grey in pieces alone that are at most so long; and a
/// piece is at most as long as what a pixel shows of the picture.
pub fn grey_law()
    ensures short { (masks : ℕ → ℕ) (class piece m upto next : ℕ) →
        IsPiece masks piece m upto next → is_mixed masks class m (next - m) ≡ true →
        next ≤ m + piece }
    ensures pixel { (w : Pane) (to : Option ℕ) (m : ℕ) → IsPane w.from w.to w.width →
        unwrap_or to m ≤ w.to → piece_of w.from to m ≤ pixel_of w }
{}
