// The reflector's sessions (leaf 9; the Rust's reflector.rs): a lent slice of records with a used count and a maximum,
// and the calls that find a session, register one and remove one. Each call's contract is one definition of specs/: the
// answer and the whole table, on refusals too.
#![tactic(auto)]

ghost use Rattle.std.specs.Prelude.{◌≡◌, ◌<◌, ◌≤◌, ◌==◌, length, get_or, position, bytes_eq};
ghost use Rattle.std.specs.Cmp.{on_per, partial_equiv_from_equiv};
ghost use Rattle.std.specs.Cmp.Lexicographic.{nat_list_eq_equiv};
ghost use Rattle.std.specs.Ordering.{on};
ghost use Rattle.error.specs.Answer.{answered};
ghost use Rattle.measurement.specs.Flow.{address};
ghost use Rattle.reflector_sessions.specs.Session.{value_of, no_session, compared, lent_compared};
ghost use Rattle.reflector_sessions.specs.Judge.{table_outcome};
ghost use Rattle.reflector_sessions.specs.Table.{table_read, table_lent, SameRows, judged_table, found_in};
ghost use Rattle.reflector_sessions.specs.Table.{searched_rows, appended, swap_removed};
ghost use Rattle.reflector_sessions.specs.Register.{invalid_session, register_session, Registers};
ghost use Rattle.reflector_sessions.specs.Claims.{AddedIsFound, UnchangedIsFound, RemovedIsNotFound, StaysUnique};
ghost use Rattle.reflector_sessions.specs.Claims.{OtherRowsKept};
ghost use Rattle.reflector_sessions.specs.Remove.{remove_session, Removes};

use error::Refusal;
use measurement::IpVersion;

// A UDP socket address: the Rust's `SocketAddr`, where flow info and scope are 0. Of an IPv4 address only the first 4
// bytes count.
#[derive(Clone, Copy)]
pub struct SocketAddr {
    pub version: IpVersion,
    pub address: [u8; 16],
    pub port: u16,
}

impl SocketAddr {
    // The bytes of the address that count.
    pub fn counted(&self) -> &[u8]
        ensures { result.now ≡ address self.now.version self.now.address }
    {
        match self.version {
            IpVersion::V4 => &self.address[..4],
            IpVersion::V6 => &self.address,
        }
    }
}

impl PartialEq for SocketAddr {
    ghost eq = { on compared bytes_eq };

    ghost laws = { on_per compared (partial_equiv_from_equiv nat_list_eq_equiv) };

    fn eq(&self, other: &SocketAddr) -> bool {
        self.version == other.version
            && self.port == other.port
            && self.counted() == other.counted()
    }
}

// A `SocketAddr` in lent memory, where any byte may stand: the version is a number, 4 for IPv4 and every other for
// IPv6.
#[repr(C)]
#[derive(Clone, Copy)]
pub struct LentSocketAddr {
    pub version: u8,
    pub address: [u8; 16],
    pub port: u16,
}

// The address that it holds.
impl From<LentSocketAddr> for SocketAddr {
    ghost from_gives = { λ lent address. address ≡ value_of lent };

    fn from(lent: LentSocketAddr) -> Self {
        let address = lent.address;
        Self {
            version: IpVersion::from(lent.version),
            address,
            port: lent.port,
        }
    }
}

impl PartialEq for LentSocketAddr {
    ghost eq = { on lent_compared bytes_eq };

    ghost laws = { on_per lent_compared (partial_equiv_from_equiv nat_list_eq_equiv) };

    fn eq(&self, other: &LentSocketAddr) -> bool {
        SocketAddr::from(*self) == SocketAddr::from(*other)
    }
}

// A session: under the policy `Echo`, G-PDUs for the local TEID are echoed to the peer's TEID and address.
#[repr(C)]
#[derive(Clone, Copy, PartialEq)]
pub struct ReflectorSession {
    pub local_teid: u32,
    pub peer_teid: u32,
    pub peer_addr: LentSocketAddr,
}

impl ReflectorSession {
    // 32: whether a TEID or the port is 0.
    #[tactic(auto, unfolding(crate::specs::Register::invalid_session))]
    fn is_invalid(self) -> bool
        ensures { result ≡ invalid_session self }
    {
        self.local_teid == 0 || self.peer_teid == 0 || self.peer_addr.port == 0
    }
}

// A session table that is lent to be read: the rows, how many of them are used, and how many may be.
#[derive(Clone, Copy)]
pub struct Sessions<'a> {
    pub rows: &'a [ReflectorSession],
    pub used: usize,
    pub max_sessions: usize,
}

// A session table that is lent to be changed.
#[derive(Drop)]
pub struct SessionTable<'a> {
    pub rows: &'a mut [ReflectorSession],
    pub used: usize,
    pub max_sessions: usize,
}

// What a search found: the row's place, and its session.
#[derive(Clone, Copy)]
pub struct FoundSession {
    pub place: usize,
    pub session: ReflectorSession,
}

// Whether a session was appended, or was there already.
#[derive(Clone, Copy, Debug, PartialEq, Eq)]
pub enum Registration {
    Added,
    Unchanged,
}

// The most sessions that a reflector may be set up for: the Rust's `MAX_REFLECTOR_SESSIONS`.
pub const MAXIMUM_SESSIONS: usize = 4096;

// Judges 30, then 31, for a table of this length; else it answers how many rows are used.
pub fn judge_table(length: usize, used: usize, max_sessions: usize) -> Result<usize, Refusal>
    ensures { answered result ≡ table_outcome length used max_sessions }
{
    if max_sessions == 0 || MAXIMUM_SESSIONS < max_sessions {
        return Err(Refusal::InvalidReflectorCapacity);
    }
    if max_sessions < used || length < max_sessions {
        return Err(Refusal::MalformedReflectorTable);
    }
    Ok(used)
}

// The place of the first row of this TEID.
fn place_in(rows: &[ReflectorSession], local_teid: u32) -> Option<usize>
    ensures { result ≡ position (λ s. s.local_teid == local_teid) rows.now }
{
    rows.iter().position(|row| row.local_teid == local_teid)
}

impl Sessions<'_> {
    // Judges 30, then 31; else it answers how many rows are used.
    pub fn judge(self) -> Result<usize, Refusal>
        ensures { answered result ≡ judged_table (table_read self.entry) }
    {
        judge_table(self.rows.len(), self.used, self.max_sessions)
    }

    // The place of the first used row of this TEID. A table that is refused has none.
    fn place(self, local_teid: u32) -> Option<usize>
        ensures { result ≡ position (λ s. s.local_teid == local_teid) (searched_rows (table_read self.entry)) }
    {
        let Ok(used) = self.judge() else {
            return None;
        };
        place_in(&self.rows[..used], local_teid)
    }
}

impl SessionTable<'_> {
    // The table, to be read.
    pub fn read(&self) -> Sessions<'_>
        ensures { table_read result ≡ table_lent self.now }
    {
        Sessions {
            rows: self.rows,
            used: self.used,
            max_sessions: self.max_sessions,
        }
    }

    // Writes a session behind the used rows.
    fn append(&mut self, session: ReflectorSession)
        requires { self.old.used < length self.old.rows.now }
        ensures table { table_lent self.new ≡ appended session (table_lent self.old) }
        ensures same { SameRows self.old self.new }
    {
        self.rows[self.used] = session;
        self.used += 1;
    }

    // Moves the last used row into a hole, and gives what stood there.
    fn swap_remove(&mut self, hole: usize) -> ReflectorSession
        requires { (hole < self.old.used) × (self.old.used ≤ length self.old.rows.now) }
        ensures table { table_lent self.new ≡ swap_removed hole (table_lent self.old) }
        ensures removed { result ≡ get_or self.old.rows.now hole no_session }
        ensures same { SameRows self.old self.new }
    {
        let removed = self.rows[hole];
        self.rows[hole] = self.rows[self.used - 1];
        self.used -= 1;
        removed
    }
}

// Looks for the session of a TEID among the used rows. A table that is refused has none.
pub fn find_session(sessions: Sessions, local_teid: u32) -> Option<FoundSession>
    ensures { result ≡ found_in (searched_rows (table_read sessions.entry)) local_teid }
{
    let place = sessions.place(local_teid)?;
    Some(FoundSession {
        place,
        session: sessions.rows[place],
    })
}

// Registers a session: 30, 31, 32; the same record changes nothing, another of its TEID is refused by 33; 34; else it
// is appended.
pub fn register_session(
    table: &mut SessionTable,
    session: ReflectorSession,
) -> Result<Registration, Refusal>
    ensures registers { Registers result (table_lent table.new)
        (register_session (table_lent table.old) session) }
    ensures same { SameRows table.old table.new }
{
    table.read().judge()?;
    if session.is_invalid() {
        return Err(Refusal::InvalidReflectorSession);
    }
    if let Some(place) = table.read().place(session.local_teid) {
        if table.rows[place] == session {
            return Ok(Registration::Unchanged);
        }
        return Err(Refusal::ReflectorSessionConflict);
    }
    if table.used == table.max_sessions {
        return Err(Refusal::ReflectorSessionCapacityExceeded);
    }
    table.append(session);
    Ok(Registration::Added)
}

// Removes the session of a TEID: 30, 31, then the record or none. The last used row is moved into the hole.
pub fn remove_session(
    table: &mut SessionTable,
    local_teid: u32,
) -> Result<Option<ReflectorSession>, Refusal>
    ensures removes { Removes result (table_lent table.new)
        (remove_session (table_lent table.old) local_teid) }
    ensures same { SameRows table.old table.new }
{
    table.read().judge()?;
    match table.read().place(local_teid) {
        None => Ok(None),
        Some(hole) => Ok(Some(table.swap_remove(hole))),
    }
}

// Carries that a session is found after it was registered, and not after it was removed.
pub fn registered_until_removed()
    ensures { AddedIsFound × UnchangedIsFound × RemovedIsNotFound }
{}

// Carries that a call leaves no two used rows with the same TEID, if there were none before.
#[tactic(auto, using(crate::proofs::Claims::stays_unique))]
pub fn teids_stay_unique()
    ensures { StaysUnique }
{}

// Carries that a call leaves every row as it was but the one that it writes.
pub fn other_rows_kept()
    ensures { OtherRowsKept }
{}
