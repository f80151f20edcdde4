// The statements that a history tells, and how far two paths go together.
ghost use Rattle.std.specs.Prelude.{◌≡◌, ◌++◌, ℕ, List, [], ◌∷◌, length, map, option_to_list, IfOk, OnOk};
ghost use Rattle.std.specs.List.Sorted.{IsPermutation};
ghost use Rattle.std.specs.Ordering.{is_lt};
ghost use Rattle.rx_rules.specs.Order.{own_path, told};
ghost use Rattle.rx_history_laws.specs.Once.{AllDiffer};
ghost use Rattle.rx_span.specs.Inside.Sorting.{comes, shared, Descends};
ghost use Rattle.rx_span.specs.Inside.Copied.{joined, AreCopied};

use rx_base::{NoMemory, Path};
use rx_history::{Act, Entry, History};
use std::alloc::Global;
use std::cmp::Ordering;

// The path of the statement that an act begins.
fn path_of(act: &Act) -> Option<&Path>
    ensures { own_path act.now ≡ map (λ p. p.now) (option_to_list result) }
{
    match act {
        Act::Open { path, .. } => Some(path),
        Act::At { path, .. } => Some(path),
        Act::Spawn { path, .. } => Some(path),
        Act::Print { path, .. } => Some(path),
        Act::Census { path, .. } => Some(path),
        Act::Arrive { .. } => None,
        Act::Wait { .. } => None,
        Act::Release { .. } => None,
        Act::End { .. } => None,
    }
}

/// Statements, copied in the order in which they are told: the numbers of one path after those of the other, how many each has, and
/// where the last begins; and whether each comes after the one before it. What comes after reads them here, where they stand together,
/// and not in the entries, which are far apart.
#[derive(Drop)]
pub(crate) struct Copies {
    numbers: Vec<u32>,
    lengths: Vec<usize>,
    last: usize,
    ascending: bool,
}

impl Copies {
    // Copies one path more.
    fn add(&mut self, path: &Path) -> Result<(), NoMemory>
        requires { (xs : List (List ℕ)) × AreCopied xs self.old }
        ensures { OnOk result ((xs : List (List ℕ)) → AreCopied xs self.old → AreCopied (xs ++ path.now ∷ []) self.new) }
    {
        let mut short = [0; 7];
        let x = path.numbers(&mut short);
        self.ascending = self.ascending && order(&self.numbers[self.last..], x).is_lt();
        self.last = self.numbers.len();
        self.numbers.extend_from_slice(x)?;
        self.lengths.push(x.len())?;
        Ok(())
    }
}

/// The statements of a history, in the order in which it tells them.
pub(crate) fn statements(alloc: Global, history: &History) -> Result<Copies, NoMemory>
    ensures { IfOk result (λ c. AreCopied (told history.now.entries) c) }
{
    let mut copies = Copies {
        numbers: Vec::new(alloc),
        lengths: Vec::new(alloc),
        last: 0,
        ascending: true,
    };
    for i in 0..history.len() {
        if let Entry::Step { act, batch, .. } = history.item(i) {
            for k in 0..batch.len() {
                copies.add(batch.item(k))?;
            }
            if let Some(path) = path_of(act) {
                copies.add(path)?;
            }
        }
    }
    Ok(copies)
}

// The order of two paths, number by number; a path comes before those that go on from it.
fn order(x: &[u32], y: &[u32]) -> Ordering
    ensures { is_lt result ≡ comes x.now y.now }
{
    let at = shared(x, y);
    if at >= x.len() || at >= y.len() {
        return x.len().cmp(&y.len());
    }
    let i = x[at];
    let j = y[at];
    i.cmp(&j)
}

// The paths whose numbers stand one after the other, in their order.
fn cut<'a>(alloc: Global, numbers: &'a [u32], lengths: &[usize]) -> Result<Vec<&'a [u32]>, NoMemory>
    requires { (xs : List (List ℕ)) × (numbers.now ≡ joined xs) × (lengths.now ≡ map length xs) }
    ensures { (xs : List (List ℕ)) → numbers.now ≡ joined xs → lengths.now ≡ map length xs → IfOk result
        (λ v. map (λ p. p.now) v.items ≡ xs) }
{
    let mut paths = Vec::with_capacity(alloc, lengths.len())?;
    let mut rest = numbers;
    for i in 0..lengths.len() {
        let (path, later) = rest.split_at(lengths[i]);
        paths.push(path)?;
        rest = later;
    }
    Ok(paths)
}

/// The statements, of which no two are the same, from the last to the first.
pub(crate) fn sorted(alloc: Global, copies: &Copies) -> Result<Vec<&[u32]>, NoMemory>
    requires { (xs : List (List ℕ)) × AreCopied xs copies.now × AllDiffer xs }
    ensures same { (xs : List (List ℕ)) → AreCopied xs copies.now → IfOk result (λ v. IsPermutation xs (map (λ p. p.now) v.items)) }
    ensures descends { IfOk result (λ v. Descends (map (λ p. p.now) v.items)) }
{
    let mut paths = cut(alloc, &copies.numbers, &copies.lengths)?;
    // Most histories tell the statements in the order of their paths.
    if copies.ascending {
        paths.reverse();
    } else {
        paths.sort_by(|x, y| order(y, x))?;
    }
    Ok(paths)
}

/// How many numbers from the front are the same.
pub(crate) fn shared(x: &[u32], y: &[u32]) -> usize
    ensures { result ≡ shared x.now y.now }
{
    let mut at = 0;
    while at < x.len() && at < y.len() {
        if x[at] != y[at] {
            return at;
        }
        at += 1;
    }
    at
}
