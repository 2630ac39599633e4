//! Posts to the sessions that join what another one publishes.
ghost use Rattle.std.specs.Prelude.{◌≡◌, ◌<◌, ◌∷◌, [], IfOk, IsTrue, OnOk, OnErr, if◌then◌else◌, length, take};
ghost use Rattle.std.specs.List.{list_any};
ghost use Rattle.shared_rows.specs.Table.{IsPlace};
ghost use Rattle.event_queue.specs.Table.{queue_at, with_queue};
ghost use Rattle.object_tree.specs.Table.{forest_at};
ghost use Rattle.publish_board.specs.Rows.{listens};
ghost use Rattle.publish_board.specs.Table.{desk_at};
ghost use Rattle.session_model.specs.Arriving.{is_matched, kinds_of, posts_by, reached, reached_by, with_call};
ghost use Rattle.session_tables.specs.Reaching.{FailsBy, IsHeard, Reaches, ReachesBy, after_posts, count_heard, only_at, post_at, post_in, posts_at, takes};
ghost use Rattle.session_tables.specs.Tables.{ChangesOnly, IsPlaced, session_at, state_at};

use crate::tables::Tables;
use class_table::ClassTable;
use event_queue::{Event, Priority, QueuedCall, Queues};
use object_tree::Forests;
use plain_types::{Callee, Text};
use publish_board::{Join, Near};
use session_model::Post;
use signature_core::{Kind, fits};
use std::alloc::{AllocError, Global};
use variant_value::{Args, Value};

/// A signal that a session sends: where the session is, its name, the object and its signal, and the
/// arguments with their kinds.
#[derive(Clone, Copy)]
pub struct Sending<'a> {
    pub alloc: Global,
    pub classes: &'a ClassTable,
    pub place: usize,
    pub from: &'a Text,
    pub object: u32,
    pub signal: u32,
    pub kinds: &'a [Kind],
    pub args: &'a [Value],
}

impl Tables {
    /// Posts a signal that is sent to every session that has joined it, once for each publication of it. A post is
    /// an event of the session that it reaches; if there is no memory for it, that session fails. Returns whether
    /// any session has failed by this, or `failing` was true.
    pub fn deliver(&mut self, sending: &Sending, failing: bool) -> bool
        requires { IsPlaced self.old sending.now.place }
        ensures reaches { Reaches sending.now.classes.now sending.now.from.now sending.now.place
            (posts_by sending.now.object sending.now.signal sending.now.kinds.now sending.now.args.now (state_at self.old sending.now.place).desk.publications)
            self.old self.new failing result }
        ensures own { state_at self.new sending.now.place ≡ state_at self.old sending.now.place }
    {
        let Some(_) = self.desks.next_joiner(sending.from, 0) else {
            return failing;
        };
        let count = self.desks.publications(sending.place).len();
        let mut failing = failing;
        'publications: for index in 0..count {
            failing = self.post_by(sending, index, failing);
        }
        failing
    }

    /// Posts the signal for one publication, if this publication is of the signal.
    fn post_by(&mut self, sending: &Sending, index: usize, failing: bool) -> bool
        requires placed { IsPlaced self.old sending.now.place }
        requires within { index < length (desk_at self.old.desks sending.now.place).publications }
        ensures reaches { Reaches sending.now.classes.now sending.now.from.now sending.now.place
            (posts_at (desk_at self.old.desks sending.now.place) index sending.now.object sending.now.signal sending.now.kinds.now sending.now.args.now)
            self.old self.new failing result }
        ensures own { state_at self.new sending.now.place ≡ state_at self.old sending.now.place }
    {
        let row = &self.desks.publications(sending.place)[index];
        if !row.publishes(sending.object, sending.signal) {
            return failing;
        }
        let count = self.failed.len();
        let mut failing = failing;
        let mut least = 0;
        let mut near = Near::new();
        'joiners: while least < count {
            let row = &self.desks.publications(sending.place)[index];
            let Some(at) = self
                .desks
                .next_listener(sending.from, &row.name, least, &mut near)
            else {
                break;
            };
            failing = self.reach(sending, index, at, near.found, failing);
            least = at + 1;
        }
        failing
    }

    /// Posts it to one session, in which so many joins listen to it.
    fn reach(
        &mut self,
        sending: &Sending,
        index: usize,
        at: usize,
        found: usize,
        failing: bool,
    ) -> bool
        requires placed { IsPlaced self.old sending.now.place }
        requires within { index < length (desk_at self.old.desks sending.now.place).publications }
        requires there { IsPlaced self.old at }
        requires found { found ≡ count_heard (desk_at self.old.desks sending.now.place) index sending.now.from.now (desk_at self.old.desks at).joins }
        ensures reaches { ReachesBy sending.now.classes.now sending.now.from.now sending.now.place
            (only_at at (post_at (desk_at self.old.desks sending.now.place) index sending.now.kinds.now sending.now.args.now))
            self.old self.new failing result }
        ensures only { ChangesOnly at self.old self.new }
        ensures own { state_at self.new sending.now.place ≡ state_at self.old sending.now.place }
    {
        if at == sending.place || *self.failed.get(at) {
            return failing;
        }
        let row = &self.desks.publications(sending.place)[index];
        let posting = Posting {
            alloc: sending.alloc,
            classes: sending.classes,
            from: sending.from,
            name: &row.name,
            kinds: sending.kinds,
            args: sending.args,
        };
        let joins = self.desks.joins(at);
        let heard = Heard {
            joins,
            most: found,
            all: found == joins.len(),
        };
        let posted = arrive(&self.forests, &mut self.queues, &posting, at, &heard);
        if posted.is_err() {
            self.give_up(at);
            return true;
        }
        failing
    }

    /// Delivers a post of the session `from` to a session. A session that has failed ignores it. If there is no
    /// memory for a join that takes it, the session fails.
    pub fn arrive(
        &mut self,
        alloc: Global,
        classes: &ClassTable,
        place: usize,
        from: &Text,
        post: &Post,
    ) -> Result<(), AllocError>
        requires { IsPlaced self.old place }
        ensures ok { OnOk result (session_at self.new place ≡ after_posts classes.now from.now (post.now ∷ []) (session_at self.old place)) }
        ensures err { OnErr result (FailsBy from.now (post.now ∷ []) (session_at self.old place) (session_at self.new place)) }
        ensures only { ChangesOnly place self.old self.new }
    {
        if *self.failed.get(place) {
            return Ok(());
        }
        let posting = Posting {
            alloc,
            classes,
            from,
            name: &post.name,
            kinds: post.kinds.as_slice(),
            args: post.arguments.as_slice(),
        };
        let joins = self.desks.joins(place);
        let heard = Heard {
            joins,
            most: joins.len(),
            all: false,
        };
        let posted = arrive(&self.forests, &mut self.queues, &posting, place, &heard);
        if posted.is_err() {
            self.give_up(place);
        }
        posted
    }
}

/// A post on its way, and the name of the session that has sent it.
#[derive(Clone, Copy)]
struct Posting<'a> {
    alloc: Global,
    classes: &'a ClassTable,
    from: &'a Text,
    name: &'a Text,
    kinds: &'a [Kind],
    args: &'a [Value],
}

/// The joins of a session that a post reaches.
#[derive(Clone, Copy)]
struct Heard<'a> {
    joins: &'a [Join],
    /// No more of them than this listen to it.
    most: usize,
    /// All of them listen to it.
    all: bool,
}

/// Posts it by all joins of a session that listen to it. No join after the last of them is looked at.
fn arrive(
    forests: &Forests,
    queues: &mut Queues,
    posting: &Posting,
    at: usize,
    heard: &Heard,
) -> Result<(), AllocError>
    requires forests { IsPlace forests.now at }
    requires queues { IsPlace queues.old at }
    requires heard { IsHeard posting.now.from.now posting.now.name.now heard.now }
    ensures ok { OnOk result (queues.new ≡ with_queue queues.old at
        (reached_by posting.now.classes.now (forest_at forests.now at).rows posting.now.from.now (post_in posting.now) (queue_at queues.old at)
        heard.now.joins.now)) }
    ensures err { OnErr result (queues.new ≡ with_queue queues.old at (queue_at queues.new at)) }
    ensures taken { OnErr result (IsTrue (list_any (takes posting.now.from.now (post_in posting.now)) heard.now.joins.now)) }
{
    let mut left = heard.most;
    'joins: for join in heard.joins {
        if left == 0 {
            break;
        }
        let count = arrive_by(forests, queues, posting, at, heard, join)?;
        left = left.saturating_sub(count);
    }
    Ok(())
}

/// Whether a join listens to it. No name is compared if all joins do.
fn is_heard(posting: &Posting, heard: &Heard, join: &Join) -> bool
    requires { IsTrue heard.now.all → IsTrue (listens posting.now.from.now posting.now.name.now join.now) }
    ensures { result ≡ listens posting.now.from.now posting.now.name.now join.now }
{
    heard.all || join.listens(posting.from, posting.name)
}

/// Posts it by one join, and returns how many listen: 1 or 0.
fn arrive_by(
    forests: &Forests,
    queues: &mut Queues,
    posting: &Posting,
    at: usize,
    heard: &Heard,
    join: &Join,
) -> Result<usize, AllocError>
    requires forests { IsPlace forests.now at }
    requires queues { IsPlace queues.old at }
    requires all { IsTrue heard.now.all → IsTrue (listens posting.now.from.now posting.now.name.now join.now) }
    ensures ok { OnOk result (queues.new ≡ with_queue queues.old at
        (reached posting.now.classes.now (forest_at forests.now at).rows posting.now.from.now (post_in posting.now) (queue_at queues.old at) join.now)) }
    ensures count { IfOk result (λ count. count ≡ (if listens posting.now.from.now posting.now.name.now join.now then 1 else 0)) }
    ensures err { OnErr result (queues.new ≡ queues.old) }
    ensures taken { OnErr result (IsTrue (takes posting.now.from.now (post_in posting.now) join.now)) }
{
    if !is_heard(posting, heard, join) {
        return Ok(0);
    }
    if !is_matched(join, posting.kinds) {
        queues.note_mismatched(at);
        return Ok(1);
    }
    let wanted = wanted_by(forests, posting.classes, at, join);
    let call = QueuedCall {
        object: join.object,
        callee: Callee::Method(join.method),
        sender: 0,
        connection: 0,
        priority: Priority::Normal,
        args: Args::copied(posting.alloc, first(posting.args, wanted))?,
    };
    enqueue_call(queues, at, call)?;
    Ok(1)
}

/// How many arguments the method of a join takes.
fn wanted_by(forests: &Forests, classes: &ClassTable, at: usize, join: &Join) -> usize
    requires { IsPlace forests.now at }
    ensures { result ≡ length (kinds_of classes.now (forest_at forests.now at).rows join.now.object join.now.method) }
{
    let Some(row) = forests.row(at, join.object) else {
        return 0;
    };
    match classes.method_row(row.class, join.method) {
        Some(method) => method.signature.kinds.len(),
        None => 0,
    }
}

/// Posts a call, or counts it as lost where there is no room for it.
fn enqueue_call(queues: &mut Queues, at: usize, call: QueuedCall) -> Result<(), AllocError>
    requires { IsPlace queues.old at }
    ensures ok { OnOk result (queues.new ≡ with_queue queues.old at (with_call (queue_at queues.old at) call)) }
    ensures err { OnErr result (queues.new ≡ queues.old) }
{
    if !queues.post(at, Event::Call(call))? {
        queues.note_lost(at);
    }
    Ok(())
}

/// Whether these are the kinds that a join names.
fn is_matched(join: &Join, kinds: &[Kind]) -> bool
    ensures { result ≡ is_matched kinds.now join.now }
{
    fits(kinds, join.kinds.as_slice()) && fits(join.kinds.as_slice(), kinds)
}

/// The first values, as many as are wanted.
fn first(values: &[Value], wanted: usize) -> &[Value]
    ensures { result.now ≡ take wanted values.now }
{
    if wanted < values.len() {
        &values[..wanted]
    } else {
        values
    }
}
