ghost use Rattle.std.specs.Prelude.{◌≡◌, ◌≢◌, ◌≤◌, ◌<◌, ◌+◌, ◌↔◌, ◌⊎◌, [], ℕ, true, false, Some, None, IsSome, IfSome, IfNone, OnOk, Contains, All, nat_eq, vec_len};
ghost use Rattle.std.specs.HashMap.{get, hash_map_len};
ghost use Rattle.std.specs.List.{IsDistinct};
ghost use Rattle.std.specs.Set.{is_member};
ghost use Rattle.std.proofs.Props.{props};
ghost use Rattle.conc_world.specs.tickets.Jobs.{thread_of};

use hs_base::NoMemory;
use std::alloc::Global;
use std::collections::HashMap;

/// A job that is out.
#[derive(Clone, Copy, Debug, PartialEq, Eq)]
pub struct Out {
    pub thread: u32,
    /// How many entries the history had when it was made.
    pub since: usize,
}

/// The jobs that are out, by ticket and by thread, and the tickets of those that are overtaken.
#[derive(Drop)]
pub struct Tickets {
    pub jobs: HashMap<u64, Out>,
    /// The ticket of each thread that has a job out.
    pub of_threads: HashMap<u32, u64>,
    /// In no order.
    pub overtaken: Vec<u64>,
    // Each table is the other's mirror.
    pub ghost mirror: { (k t : ℕ) → (thread_of (get nat_eq jobs k) ≡ Some t) ↔ (get nat_eq of_threads t ≡ Some k) } by { Prim.hlevel props },
    // What is overtaken is out, and stands once.
    pub ghost out: { (k : ℕ) → is_member nat_eq overtaken.items k ≡ true → IsSome (get nat_eq jobs k) },
    pub ghost once: { IsDistinct nat_eq overtaken.items } by { Prim.hlevel props },
    // There is room for each job that is out, so that marking one takes no memory.
    pub ghost roomy: { hash_map_len jobs ≤ overtaken.cap },
}

/// Puts a ticket among others where it isn't yet. There is room.
fn put_in(tickets: &mut Vec<u64>, ticket: u64)
    requires { is_member nat_eq tickets.old.items ticket ≡ false → vec_len tickets.old < tickets.old.cap }
    ensures put { is_member nat_eq tickets.new.items ticket ≡ true }
    ensures others { (k : ℕ) → k ≢ ticket → is_member nat_eq tickets.new.items k ≡ is_member nat_eq tickets.old.items k }
    ensures once { IsDistinct nat_eq tickets.old.items → IsDistinct nat_eq tickets.new.items }
    ensures capacity { tickets.new.cap ≡ tickets.old.cap }
{
    if !tickets.contains(&ticket) {
        tickets.push_reserved(ticket);
    }
}

/// Takes a ticket from among others.
fn take_out(tickets: &mut Vec<u64>, ticket: u64)
    ensures taken { is_member nat_eq tickets.new.items ticket ≡ false }
    ensures others { (k : ℕ) → k ≢ ticket → is_member nat_eq tickets.new.items k ≡ is_member nat_eq tickets.old.items k }
    ensures once { IsDistinct nat_eq tickets.old.items → IsDistinct nat_eq tickets.new.items }
    ensures capacity { tickets.new.cap ≡ tickets.old.cap }
{
    tickets.retain(|other| *other != ticket);
}

/// The least of some tickets.
fn least(tickets: &[u64]) -> Option<u64>
    ensures none { IfNone result (tickets.now ≡ []) }
    ensures some { IfSome result (Contains tickets.now) }
    ensures least { IfSome result (λ k. All (λ q. k ≤ q) tickets.now) }
{
    tickets.iter().copied().min()
}

impl Tickets {
    ghost use Rattle.conc_world.specs.tickets.Out.{job, ticket_of, is_overtaken, IsIdle, Same, HasRoom, TakesBack};

    /// No job is out.
    pub fn new(alloc: Global) -> Tickets
        ensures { IsIdle result }
    {
        Tickets {
            jobs: HashMap::new(alloc),
            of_threads: HashMap::new(alloc),
            overtaken: Vec::new(alloc),
        }
    }

    /// Makes room for one more job.
    pub fn room(&mut self) -> Result<(), NoMemory>
        ensures same { Same self.old self.new }
        ensures ok { OnOk result (HasRoom self.new) }
    {
        self.jobs.reserve(1)?;
        self.of_threads.reserve(1)?;
        self.overtaken.reserve(self.jobs.len() + 1)?;
        Ok(())
    }

    /// The ticket's job is out, and not overtaken. It takes no memory.
    pub fn add(&mut self, ticket: u64, thread: u32, since: usize)
        requires room { HasRoom self.old }
        requires new { job self.old ticket ≡ None }
        requires free { ticket_of self.old thread ≡ None }
        ensures out { job self.new ticket ≡ Some (record { thread = thread; since = since }) }
        ensures others { (k : ℕ) → k ≢ ticket → job self.new k ≡ job self.old k }
        ensures thread { ticket_of self.new thread ≡ Some ticket }
        ensures threads { (t : ℕ) → t ≢ thread → ticket_of self.new t ≡ ticket_of self.old t }
        ensures mark { is_overtaken self.new ticket ≡ false }
        ensures marks { (k : ℕ) → is_overtaken self.new k ≡ is_overtaken self.old k }
    {
        match self.jobs.insert(ticket, Out { thread, since }) {
            Ok(_) => {}
            Err(_) => unreachable!(),
        }
        match self.of_threads.insert(thread, ticket) {
            Ok(_) => {}
            Err(_) => unreachable!(),
        }
    }

    /// Takes the ticket back where it is out, and changes nothing else. It takes no memory.
    pub fn drop(&mut self, ticket: u64)
        ensures { TakesBack self.old self.new ticket }
    {
        let Some(out) = self.jobs.remove(&ticket) else {
            return;
        };
        let _ = self.of_threads.remove(&out.thread);
        take_out(&mut self.overtaken, ticket);
    }

    /// The thread's job, if it has one out, is overtaken from now on. It takes no memory.
    pub fn mark(&mut self, thread: u32)
        ensures job { (k : ℕ) → job self.new k ≡ job self.old k }
        ensures ticket { (t : ℕ) → ticket_of self.new t ≡ ticket_of self.old t }
        ensures overtaken { (k : ℕ) → (is_overtaken self.new k ≡ true) ↔ ((is_overtaken self.old k ≡ true) ⊎ (thread_of (job self.old k) ≡ Some thread)) }
    {
        if let Some(&ticket) = self.of_threads.get(&thread) {
            put_in(&mut self.overtaken, ticket);
        }
    }

    /// Takes back the least ticket that is overtaken. It takes no memory.
    pub fn next_overtaken(&mut self) -> Option<u64>
        ensures some { IfSome result (λ k. is_overtaken self.old k ≡ true) }
        ensures least { IfSome result (λ k. (q : ℕ) → q < k → is_overtaken self.old q ≡ false) }
        ensures back { IfSome result (TakesBack self.old self.new) }
        ensures none { IfNone result ((k : ℕ) → is_overtaken self.old k ≡ false) }
        ensures same { IfNone result (Same self.old self.new) }
    {
        let ticket = least(&self.overtaken)?;
        self.drop(ticket);
        Some(ticket)
    }

    /// Takes back all. It takes no memory.
    pub fn clear(&mut self)
        ensures { IsIdle self.new }
    {
        self.jobs.clear();
        self.of_threads.clear();
        self.overtaken.clear();
    }
}
