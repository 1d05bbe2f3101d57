// What an act makes of the slow program.
use super::slow_desk::{
    Act, Base, Kind, Link, NAMES, News, Progress, Request, SlowDesk, Tx, is_busy, runs,
};
use idb_keys::{Durability, ErrorName, Mode};
use name_queues::{ClientEvent, ConnId, Wants};
use std::process::Abort;

impl SlowDesk {
    // ---- queues

    fn send(&mut self, rt: &impl Abort, event: ClientEvent) {
        self.events.push(event).expect(rt, "memory");
    }

    /// The request is answered.
    fn answer(&mut self, rt: &impl Abort, event: ClientEvent) {
        self.requests.retain(|r| r.who != event.conn());
        self.send(rt, event)
    }

    fn fail(&mut self, rt: &impl Abort, conn: ConnId, name: ErrorName) {
        self.answer(rt, ClientEvent::Error { conn, name })
    }

    fn progress(&mut self, who: ConnId, progress: Progress) {
        if let Some(r) = self.requests.iter_mut().find(|r| r.who == who) {
            r.progress = progress;
        }
    }

    fn connect(&mut self, rt: &impl Abort, who: ConnId, name: &'static str) {
        self.links
            .push(Link {
                who,
                name,
                is_known: false,
                has_close_pending: false,
                tells: false,
                news: News::None,
                is_over: false,
            })
            .expect(rt, "memory");
        self.links
            .sort_by_key(|c| (c.who.client, c.who.request))
            .expect(rt, "memory");
    }

    /// The version that the request asks for; none for a deletion.
    fn wanted(&self, r: Request) -> Option<u64> {
        match r.wants {
            Wants::Open {
                version: Some(version),
            } => Some(version),
            Wants::Open { version: None } if self.version(r.name) == 0 => Some(1),
            Wants::Open { version: None } => Some(self.version(r.name)),
            Wants::Delete => None,
        }
    }

    fn tell(&mut self, rt: &impl Abort, r: Request) {
        let old = self.version(r.name);
        let new = self.wanted(r);
        for link in self.links.iter_mut() {
            if link.name == r.name && !link.has_close_pending {
                link.news = News::Sent;
                self.events
                    .push(ClientEvent::VersionChange {
                        conn: link.who,
                        old,
                        new,
                    })
                    .expect(rt, "memory");
            }
        }
        self.progress(r.who, Progress::Told);
    }

    fn begin(&mut self, rt: &impl Abort, r: Request) {
        let old = self.version(r.name);
        match self.wanted(r) {
            Some(new) if new < old => self.fail(rt, r.who, ErrorName::VersionError),
            Some(new) if new == old => {
                self.connect(rt, r.who, r.name);
                self.answer(
                    rt,
                    ClientEvent::Success {
                        conn: r.who,
                        version: new,
                    },
                )
            }
            None if old == 0 => self.answer(
                rt,
                ClientEvent::Success {
                    conn: r.who,
                    version: 0,
                },
            ),
            _ => self.tell(rt, r),
        }
    }

    /// Once each versionchange event is handled, or its connection closed: blocked, where one is still not closed.
    fn listen(&mut self, rt: &impl Abort, r: Request) {
        let is_heard = !self.links.iter().any(|c| {
            c.name == r.name && (c.news == News::Sent || c.news == News::Taken)
        });
        if is_heard {
            self.progress(r.who, Progress::Waits);
            if self.links.iter().any(|c| c.name == r.name) {
                let (old, new) = (self.version(r.name), self.wanted(r));
                self.send(
                    rt,
                    ClientEvent::Blocked {
                        conn: r.who,
                        old,
                        new,
                    },
                );
            }
        }
    }

    /// Once all connections are closed the upgrade runs, or the deletion.
    fn get_ready(&mut self, rt: &impl Abort, r: Request) {
        if self.links.iter().any(|c| c.name == r.name) {
            return;
        }
        let (conn, old) = (r.who, self.version(r.name));
        let new = self.wanted(r);
        self.progress(conn, Progress::Runs);
        match new {
            Some(new) => {
                self.connect(rt, conn, r.name);
                self.send(rt, ClientEvent::Upgrade { conn, old, new })
            }
            None => self.send(rt, ClientEvent::DeleteReady { conn, old }),
        }
    }

    fn turn(&mut self, rt: &impl Abort, name: &str) {
        match self.front(name) {
            Some(r) => match r.progress {
                Progress::Asked => self.begin(rt, r),
                Progress::Told => self.listen(rt, r),
                Progress::Waits => self.get_ready(rt, r),
                Progress::Runs => {}
            },
            None => {}
        }
    }

    /// The queue of the name moves as far as it can: each request three times at most.
    fn settle(&mut self, rt: &impl Abort, name: &str) {
        let waiting = self.requests.iter().filter(|r| r.name == name).count();
        for _ in 0..waiting.saturating_mul(3) {
            self.turn(rt, name);
        }
    }

    // ---- connections

    /// Connections with close pending of which nothing is unfinished are closed.
    fn sweep(&mut self, rt: &impl Abort, name: &str) {
        for link in self.links.iter_mut() {
            link.is_over = link.name == name
                && link.has_close_pending
                && !is_busy(self.requests.as_slice(), self.txs.as_slice(), link.who);
            if link.is_over && link.tells {
                self.events
                    .push(ClientEvent::Closed { conn: link.who })
                    .expect(rt, "memory");
            }
        }
        self.links.retain(|c| !c.is_over);
    }

    /// It gets close pending, and loses a versionchange event that wasn't taken.
    fn close(&mut self, who: ConnId) {
        if let Some(link) = self.links.iter_mut().find(|c| c.who == who) {
            link.has_close_pending = true;
            if link.news == News::Sent {
                link.news = News::Handled;
            }
        }
        self.events.retain(|e| !e.is_change_of(who));
    }

    fn fault_at(&mut self, rt: &impl Abort, name: &str) {
        for link in self.links.iter_mut() {
            if link.name == name && !link.has_close_pending {
                link.has_close_pending = true;
                link.tells = !runs(self.requests.as_slice(), link.who);
                if link.news == News::Sent {
                    link.news = News::Handled;
                }
            }
        }
        self.sweep(rt, name);
        for r in self.requests.iter() {
            if r.name == name && r.progress != Progress::Runs {
                let (conn, name) = (r.who, ErrorName::UnknownError);
                self.events
                    .push(ClientEvent::Error { conn, name })
                    .expect(rt, "memory");
            }
        }
        self.requests
            .retain(|r| r.name != name || r.progress == Progress::Runs);
    }

    fn fault(&mut self, rt: &impl Abort) {
        self.is_faulted = true;
        self.events.retain(|e| !e.is_change());
        for name in NAMES {
            self.fault_at(rt, name);
        }
    }

    // ---- steps

    fn ask(&mut self, rt: &impl Abort, who: ConnId, name: &'static str, wants: Wants) {
        self.asked.push(who).expect(rt, "memory");
        if self.is_faulted {
            return self.fail(rt, who, ErrorName::UnknownError);
        }
        if !self.has_room(name) {
            return self.fail(rt, who, ErrorName::QuotaExceededError);
        }
        self.requests
            .push(Request {
                who,
                name,
                wants,
                progress: Progress::Asked,
            })
            .expect(rt, "memory");
        self.settle(rt, name)
    }

    fn draw(&mut self, rt: &impl Abort, who: ConnId, kind: Kind) {
        let number = self.next_number();
        if let Some(r) = self.requests.iter().find(|r| r.who == who).copied() {
            self.txs
                .push(Tx {
                    number,
                    who,
                    name: r.name,
                    kind,
                    scope: "",
                    mode: Mode::VersionChange,
                    durability: Durability::Strict,
                    is_started: false,
                    is_finished: false,
                })
                .expect(rt, "memory");
        }
    }

    fn know(&mut self, who: ConnId) {
        if let Some(link) = self.links.iter_mut().find(|c| c.who == who) {
            link.is_known = true;
        }
    }

    fn hear(&mut self, who: ConnId, news: News) {
        if let Some(link) = self.links.iter_mut().find(|c| c.who == who) {
            link.news = news;
        }
    }

    fn take(&mut self, rt: &impl Abort, client: u32) -> Option<ClientEvent> {
        let event = match self.events.iter().position(|e| e.conn().client == client) {
            Some(place) if place < self.events.len() => self.events.remove(place),
            _ => return None,
        };
        match event {
            ClientEvent::Upgrade { conn, new, .. } => {
                self.know(conn);
                self.draw(rt, conn, Kind::Upgrade(new));
            }
            ClientEvent::DeleteReady { conn, .. } => self.draw(rt, conn, Kind::Deletion),
            ClientEvent::Success { conn, .. } => self.know(conn),
            ClientEvent::VersionChange { conn, .. } => {
                self.hear(conn, News::Taken);
                self.taken.push(conn).expect(rt, "memory");
            }
            _ => {}
        }
        Some(event)
    }

    fn handle(&mut self, rt: &impl Abort, client: u32) {
        if let Some(who) = self.to_handle(client) {
            self.hear(who, News::Handled);
            if let Some(link) = self.link(who) {
                self.settle(rt, link.name);
            }
        }
    }

    fn close_by_client(&mut self, rt: &impl Abort, who: ConnId) {
        if let Some(link) = self.link(who) {
            self.close(who);
            self.sweep(rt, link.name);
            self.settle(rt, link.name);
        }
    }

    fn create(
        &mut self,
        rt: &impl Abort,
        who: ConnId,
        scope: &'static str,
        mode: Mode,
        durability: Durability,
    ) {
        let number = self.next_number();
        if let Some(link) = self.link(who) {
            self.txs
                .push(Tx {
                    number,
                    who,
                    name: link.name,
                    kind: Kind::Plain,
                    scope,
                    mode,
                    durability,
                    is_started: false,
                    is_finished: false,
                })
                .expect(rt, "memory");
        }
    }

    fn start(&mut self, number: u64) {
        if let Some(t) = self.txs.iter_mut().find(|t| t.number == number) {
            t.is_started = true;
        }
    }

    /// What the end of an upgrade gives its open.
    fn end_upgrade(&mut self, rt: &impl Abort, conn: ConnId, committed: Option<u64>) {
        match (self.link(conn), committed) {
            (Some(link), Some(version)) if !link.has_close_pending => {
                self.answer(rt, ClientEvent::Success { conn, version })
            }
            _ => {
                self.close(conn);
                self.fail(rt, conn, ErrorName::AbortError)
            }
        }
    }

    /// What the end of a deletion gives its request.
    fn end_deletion(&mut self, rt: &impl Abort, conn: ConnId, name: &str, committed: bool) {
        if !committed {
            return self.fail(rt, conn, ErrorName::UnknownError);
        }
        let version = self.version(name);
        self.bases.retain(|b| b.name != name);
        self.answer(rt, ClientEvent::Success { conn, version })
    }

    fn leave(&mut self, rt: &impl Abort, number: u64, committed: bool, base: Option<Base>) {
        let t = match self.txs.iter_mut().find(|t| t.number == number) {
            Some(t) => {
                t.is_finished = true;
                *t
            }
            None => return,
        };
        match t.kind {
            Kind::Plain => {}
            Kind::Upgrade(_) => {
                if let Some(base) = base {
                    self.bases.retain(|b| b.name != t.name);
                    self.bases.push(base).expect(rt, "memory");
                }
                self.end_upgrade(rt, t.who, base.map(|b| b.version));
            }
            Kind::Deletion => self.end_deletion(rt, t.who, t.name, committed),
        }
        self.sweep(rt, t.name);
        self.settle(rt, t.name)
    }

    /// Does what may be done; the event that is taken.
    pub fn make(&mut self, rt: &impl Abort, act: Act) -> Option<ClientEvent> {
        self.made.push(act).expect(rt, "memory");
        match act {
            Act::Ask(who, name, wants) => self.ask(rt, who, name, wants),
            Act::Take(client) => return self.take(rt, client),
            Act::Handle(client) => self.handle(rt, client),
            Act::Close(who) => self.close_by_client(rt, who),
            Act::Create(_, who, scope, mode, durability) => {
                self.create(rt, who, scope, mode, durability)
            }
            Act::Start(_, number) => self.start(number),
            Act::Leave(_, number, committed) => self.leave(rt, number, committed, None),
            Act::Upgraded(_, number, name, version, stores) => {
                self.leave(
                    rt,
                    number,
                    true,
                    Some(Base {
                        name,
                        version,
                        stores,
                    }),
                )
            }
            Act::Fault => self.fault(rt),
        }
        None
    }
}
