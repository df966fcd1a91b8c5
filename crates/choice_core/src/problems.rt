//! Modules with their own costs, and fans with their prices.

ghost use Rattle.std.specs.Prelude.{◌≡◌, ℕ, ◌*◌, ◌^◌, ◌<◌, ◌≤◌, ◌++◌, ◌||◌, [], ◌∷◌, cond, IsTrue, MatchOption, IfOk, OnOk, All, length, filter, replicate, ◌==◌, ◌+◌, slice_set, slice_index, slice_index_or};
ghost use Rattle.choice_core.specs.Bound.{further};
ghost use Rattle.choice_core.specs.Choices.{rank, same_sharing};
ghost use Rattle.choice_core.specs.Growing.{entry_of, mark_of};
ghost use Rattle.choice_core.specs.declared.sharings.Sharing.{Sharing};
ghost use Rattle.choice_core.specs.Problems.{Row, own_of, price_of, sharing_at, is_in, reaches, charge, fan_cost, greatest_price, touches, IsFan, AreTouching, AreFollowing, next_from};

use crate::sharings::{Choice, Sharing};
use hy_bits::{Memory, Sequence};
use std::alloc::Global;
use std::marker::Model;

/// The numbers of a cost table: for products by width (8, 16, 32, 64), for conversions by width
/// (1, 8, 16, 32, 64), for an AND at B, a level of ANDs at B, and an AND at Y.
#[derive(Clone, Copy, PartialEq, Eq, Debug)]
pub struct Table {
    pub a_mul: [u32; 4],
    pub a2b: [u32; 5],
    pub a2y: [u32; 5],
    pub b2a: [u32; 5],
    pub b2y: [u32; 5],
    pub y2a: [u32; 5],
    pub y2b: [u32; 5],
    pub b_and: u32,
    pub b_level: u32,
    pub y_and: u32,
}

/// The words of the module `from` that the modules `to`, and no others, use. `price` has the cost
/// of converting them, by the producer's and then the consumer's sharing.
#[derive(Drop)]
pub struct Fan {
    pub from: u32,
    pub to: Sequence<u32>,
    pub price: [[u64; 3]; 3],
}

/// For each module its own cost by choice, `None` where the choice isn't allowed, and the fans.
#[derive(Drop)]
pub struct Costs {
    pub own: Sequence<[Option<u64>; 4]>,
    pub fans: Sequence<Fan>,
}

/// What choices of circuits cost. Contracts see the costs alone; beside them stand, for each module, the numbers of the
/// fans that touch it, and those of the modules that these fans go on to.
#[derive(Drop)]
pub struct Problem {
    costs: Costs,
    touching: Sequence<Sequence<u32>>,
    following: Sequence<Sequence<u32>>,
}

impl Model for Problem {
    ghost use Rattle.choice_core.specs.declared.problems.Costs.{Costs};
    ghost use Rattle.choice_core.specs.Problems.{IsIndexed};

    ghost Value = { Costs };

    ghost view = { λ p. p.costs };

    ghost invariant = { λ p. IsIndexed p.costs p.touching p.following };
}

/// Puts a fan's number behind those of a module.
fn add(lists: &mut [Sequence<u32>], number: usize, place: u32) -> Result<(), Memory>
    requires { number < length lists.old }
    ensures { OnOk result (lists.new ≡ slice_set lists.old number (slice_index_or lists.old number [] ++ place ∷ [])) }
{
    lists[number].push(place)?;
    Ok(())
}

/// Puts a fan's number behind those of its producer and of each consumer.
fn add_fan(lists: &mut [Sequence<u32>], fan: &Fan, place: u32) -> Result<(), Memory>
    requires { IsFan (length lists.old) fan.now }
    ensures size { OnOk result (length lists.new ≡ length lists.old) }
    ensures lists { OnOk result ((m : ℕ) → m < length lists.old → slice_index_or lists.new m [] ≡ slice_index_or lists.old m [] ++ cond (touches fan.now m) (place ∷ []) []) }
{
    add(lists, fan.from as usize, place)?;
    for consumer in fan.to.as_slice() {
        add(lists, *consumer as usize, place)?;
    }
    Ok(())
}

/// Puts the number of each fan behind those of its producer and of each consumer.
fn add_fans(lists: &mut [Sequence<u32>], fans: &[Fan]) -> Result<(), Memory>
    requires fans { All (IsFan (length lists.old)) fans.now }
    requires few { length fans.now < 2 ^ 32 }
    requires empty { (m : ℕ) → m < length lists.old → slice_index_or lists.old m [] ≡ [] }
    ensures size { OnOk result (length lists.new ≡ length lists.old) }
    ensures numbers { OnOk result ((m : ℕ) → m < length lists.old → AreTouching fans.now m (slice_index_or lists.new m [])) }
{
    for (place, fan) in fans.iter().enumerate() {
        add_fan(lists, fan, place as u32)?;
    }
    Ok(())
}

/// As many lists without numbers.
fn empty_lists(alloc: Global, count: usize) -> Result<Vec<Sequence<u32>>, Memory>
    ensures { IfOk result (λ lists. lists.items ≡ replicate count []) }
{
    let mut lists = Vec::with_capacity(alloc, count)?;
    for _ in 0..count {
        lists.push(Sequence::new(Vec::new(alloc)))?;
    }
    Ok(lists)
}

/// For each of the modules the numbers of the fans that touch it, in order.
fn touching_lists(alloc: Global, count: usize, fans: &[Fan]) -> Result<Vec<Sequence<u32>>, Memory>
    requires fans { All (IsFan count) fans.now }
    requires few { length fans.now < 2 ^ 32 }
    ensures size { IfOk result (λ lists. length lists.items ≡ count) }
    ensures numbers { IfOk result (λ lists. (m : ℕ) → m < count → AreTouching fans.now m (slice_index_or lists.items m [])) }
{
    let mut lists = empty_lists(alloc, count)?;
    add_fans(lists.as_mut_slice(), fans)?;
    Ok(lists)
}

/// Puts a module behind the others of a list, unless its mark says that it is among them.
fn add_once(
    list: &mut Sequence<u32>,
    marks: &mut [usize],
    next: usize,
    mark: usize,
) -> Result<(), Memory>
    requires within { next < length marks.old }
    requires small { next < 2 ^ 32 }
    ensures marks { OnOk result (marks.new ≡ slice_set marks.old next mark) }
    ensures list { OnOk result (list.new ≡ cond (slice_index marks.old next == mark) list.old (list.old ++ next ∷ [])) }
{
    let listed = marks[next] == mark;
    marks[next] = mark;
    if !listed {
        list.push(next as u32)?;
    }
    Ok(())
}

/// The modules that the fans which touch a module go on to, each once. The marks of those are left
/// greater than the module's number, which no mark was before.
fn following_list(
    alloc: Global,
    fans: &[Fan],
    touching: &[u32],
    number: usize,
    marks: &mut [usize],
) -> Result<Sequence<u32>, Memory>
    requires fans { All (IsFan (length marks.old)) fans.now }
    requires touching { AreTouching fans.now number touching.now }
    requires within { number < length marks.old }
    requires marks { (n : ℕ) → n < length marks.old → slice_index marks.old n ≤ number }
    ensures following { IfOk result (λ list. AreFollowing fans.now number list) }
    ensures size { OnOk result (length marks.new ≡ length marks.old) }
    ensures marks { OnOk result ((n : ℕ) → n < length marks.old → slice_index marks.new n ≤ number + 1) }
{
    let mut list = Sequence::new(Vec::new(alloc));
    for place in touching {
        if let Some(next) = fans[*place as usize].next_from(number + 1) {
            add_once(&mut list, marks, next, number + 1)?;
        }
    }
    Ok(list)
}

/// For each of the modules those that the fans which touch it go on to, each once.
fn following_lists(
    alloc: Global,
    fans: &[Fan],
    touching: &[Sequence<u32>],
) -> Result<Vec<Sequence<u32>>, Memory>
    requires fans { All (IsFan (length touching.now)) fans.now }
    requires touching { (m : ℕ) → m < length touching.now → AreTouching fans.now m (slice_index_or touching.now m []) }
    ensures size { IfOk result (λ lists. length lists.items ≡ length touching.now) }
    ensures following { IfOk result (λ lists. (m : ℕ) → m < length touching.now → AreFollowing fans.now m (slice_index_or lists.items m [])) }
{
    let mut marks = vec![in alloc; 0; touching.len()]?;
    let mut lists = Vec::with_capacity(alloc, touching.len())?;
    for (number, places) in touching.iter().enumerate() {
        let marks = marks.as_mut_slice();
        lists.push(following_list(alloc, fans, places.as_slice(), number, marks)?)?;
    }
    Ok(lists)
}

impl Problem {
    /// The problem of the modules with these own costs and of these fans. The time is that of one pass over a fan's
    /// consumers for each module that the fan touches.
    ///
    /// # Errors
    ///
    /// Memory ran out.
    pub fn of(
        alloc: Global,
        own: Sequence<[Option<u64>; 4]>,
        fans: Sequence<Fan>,
    ) -> Result<Problem, Memory>
        requires fans { All (IsFan (length own)) fans }
        requires few { length fans < 2 ^ 32 }
        ensures { IfOk result (λ p. p ≡ record { own = own; fans = fans }) }
    {
        let touching = touching_lists(alloc, own.as_slice().len(), fans.as_slice())?;
        let following = following_lists(alloc, fans.as_slice(), touching.as_slice())?;
        Ok(Problem {
            costs: Costs { own, fans },
            touching: Sequence::new(touching),
            following: Sequence::new(following),
        })
    }

    /// The own costs of the modules, by choice.
    pub fn own(&self) -> &[[Option<u64>; 4]]
        ensures { result.now ≡ self.now.own }
    {
        self.costs.own.as_slice()
    }

    /// The fans.
    pub fn fans(&self) -> &[Fan]
        ensures { result.now ≡ self.now.fans }
    {
        self.costs.fans.as_slice()
    }

    /// The numbers of the modules that the fans which touch the module of this number go on to, each once.
    pub fn following(&self, number: usize) -> &[u32]
        requires { number < length self.now.own }
        ensures { AreFollowing self.now.fans number result.now }
    {
        self.following.as_slice()[number].as_slice()
    }

    /// How many fans touch the module of this number.
    pub fn touching_count(&self, number: usize) -> usize
        requires { number < length self.now.own }
        ensures { result ≡ length (filter (λ f. touches f number) self.now.fans) }
    {
        self.touching.as_slice()[number].as_slice().len()
    }

    /// The fan of this place among those that touch the module of this number.
    pub fn touching_fan(&self, number: usize, place: usize) -> &Fan
        requires number { number < length self.now.own }
        requires place { place < length (filter (λ f. touches f number) self.now.fans) }
        ensures { result.now ≡ slice_index_or (filter (λ f. touches f number) self.now.fans) place result.now }
    {
        let numbers = self.touching.as_slice()[number].as_slice();
        &self.costs.fans.as_slice()[numbers[place] as usize]
    }
}

/// The own cost of a module's choice, by the module's own costs.
pub fn own_cost(row: &[Option<u64>; 4], choice: Choice) -> Option<u64>
    ensures { result ≡ own_of row.now choice }
{
    row[choice.place()]
}

/// The sharing of the module of this number, if it has a choice.
#[tactic(auto, unfolding(crate::specs::Problems::sharing_at))]
pub fn sharing_at(choices: &[Choice], number: u32) -> Option<Sharing>
    ensures { result ≡ sharing_at choices.now number }
{
    match choices.get(number as usize) {
        Some(choice) => Some(choice.sharing()),
        None => None,
    }
}

/// Whether the module of this number has a choice in this sharing.
#[tactic(auto, using(crate::proofs::Walks::same_is))]
fn is_in(choices: &[Choice], number: u32, sharing: Sharing) -> bool
    ensures { result ≡ is_in (sharing_at choices.now number) sharing }
{
    match sharing_at(choices, number) {
        Some(own) => own == sharing,
        None => false,
    }
}

impl Fan {
    /// The price from one sharing to another.
    pub fn price(&self, from: Sharing, to: Sharing) -> u64
        ensures { result ≡ price_of self.now from to }
    {
        self.price[from.rank()][to.rank()]
    }

    /// Whether some consumer has a choice in this sharing.
    pub fn reaches(&self, choices: &[Choice], sharing: Sharing) -> bool
        ensures { result ≡ reaches self.now choices.now sharing }
    {
        for consumer in self.to.as_slice() {
            if is_in(choices, *consumer, sharing) {
                return true;
            }
        }
        false
    }

    /// The price from the producer's sharing to another, if some consumer has it.
    #[tactic(auto, using(crate::proofs::Walks::same_is), unfolding(crate::specs::Problems::charge))]
    fn charge(&self, choices: &[Choice], from: Sharing, to: Sharing) -> u64
        ensures { result ≡ charge self.now choices.now from to }
    {
        if to != from && self.reaches(choices, to) {
            self.price(from, to)
        } else {
            0
        }
    }

    #[tactic(auto, using(crate::proofs::Limits::fan_cost_le), unfolding(crate::specs::Problems::fan_cost_from))]
    /// What the fan costs under these choices: nothing while its producer has none. Its time is
    /// linear in the consumers.
    pub fn cost(&self, choices: &[Choice]) -> u64
        requires { 2 * greatest_price self.now < 2 ^ 63 }
        ensures { result ≡ fan_cost self.now choices.now }
    {
        match sharing_at(choices, self.from) {
            Some(from) => {
                self.charge(choices, from, Sharing::Arithmetic)
                    + self.charge(choices, from, Sharing::Boolean)
                    + self.charge(choices, from, Sharing::Yao)
            }
            None => 0,
        }
    }

    /// The first consumer that isn't among the first `count` modules.
    pub fn next_from(&self, count: usize) -> Option<usize>
        ensures is { result ≡ next_from count self.now.to }
        ensures small { MatchOption result (Unit {0}) (λ n. n < 2 ^ 32) }
    {
        for consumer in self.to.as_slice() {
            let number = *consumer as usize;
            if number >= count {
                return Some(number);
            }
        }
        None
    }

    /// In which sharings, by rank, some consumer has a choice. The time is linear in the consumers.
    fn reached(&self, choices: &[Choice]) -> [bool; 3]
        ensures { (t : Sharing) → mark_of result t ≡ reaches self.now choices.now t }
    {
        let mut reached = [false; 3];
        for consumer in self.to.as_slice() {
            reached = marked(&reached, sharing_at(choices, *consumer));
        }
        reached
    }

    /// The price from one sharing to another: nothing where the other one is reached, or is the first one.
    #[tactic(auto, using(crate::proofs::Walks::same_is))]
    fn price_unless(&self, reached: bool, from: Sharing, to: Sharing) -> u64
        ensures { result ≡ cond (reached || same_sharing to from) 0 (price_of self.now from to) }
    {
        if reached || to == from {
            0
        } else {
            self.price(from, to)
        }
    }

    /// What one more consumer adds to the fan's cost, by the rank of its sharing. The time is linear in the consumers.
    pub fn further(&self, prefix: &[Choice]) -> [u64; 3]
        ensures { (t : Sharing) → entry_of result t ≡ further self.now prefix.now t }
    {
        let Some(from) = sharing_at(prefix, self.from) else {
            return [0; 3];
        };
        let [arithmetic, boolean, yao] = self.reached(prefix);
        [
            self.price_unless(arithmetic, from, Sharing::Arithmetic),
            self.price_unless(boolean, from, Sharing::Boolean),
            self.price_unless(yao, from, Sharing::Yao),
        ]
    }
}

/// The marks with that of a module's sharing, if it has a choice.
fn marked(marks: &[bool; 3], sharing: Option<Sharing>) -> [bool; 3]
    ensures { (t : Sharing) → mark_of result t ≡ (mark_of marks.now t || is_in sharing t) }
{
    let [arithmetic, boolean, yao] = *marks;
    match sharing {
        Some(Sharing::Arithmetic) => [true, boolean, yao],
        Some(Sharing::Boolean) => [arithmetic, true, yao],
        Some(Sharing::Yao) => [arithmetic, boolean, true],
        None => *marks,
    }
}
