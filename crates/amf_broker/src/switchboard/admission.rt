ghost use Rattle.std.specs.Prelude.{◌≡◌, ◌+◌, ◌==◌, ◌&&◌, ◌||◌, nat_le, ℕ, Option, bytes_eq, count_by, length, true};
ghost use Rattle.std.specs.List.{list_any};
ghost use Rattle.amf_broker.specs.Machine.{refusal, client_refusal, topic_refusal, number_refusal, places_of, last_of, is_connected};
ghost use Rattle.amf_broker.specs.Admission.{allowed};
ghost use Rattle.amf_broker.specs.Moments.{board_at, stays};

use crate::moment::Moment;
use crate::switchboard::Switchboard;
use crate::{
    Call, ClientId, MAX_CLIENTS, MAX_MESSAGE, MAX_SUBS, MAX_SUBTOPIC, Reply, SubId, Topic,
};
use amf_wire::Name;

/// Whether a poll of this number is the next one, or the last one once more.
fn is_next_or_last(last: u64, number: u64) -> bool
    ensures { result ≡ (number == last + 1 || (number == last && nat_le 1 last)) }
{
    (number > last && number - last == 1) || (number == last && last >= 1)
}

/// Whether the destination is one of these.
fn is_listed(destinations: &[Name], destination: &Name) -> bool
    ensures { result ≡ list_any (bytes_eq destination.now) destinations.now }
{
    destinations
        .iter()
        .any(|name| destination.as_bytes() == name.as_bytes())
}

impl Switchboard {
    /// The call of this moment, unless it is refused.
    pub(crate) fn admitted(&self, moment: &Moment, call: Call) -> Result<Call, Reply>
        ensures { result ≡ allowed (refusal (board_at moment.now self.now) call) call }
    {
        match call {
            Call::Connect => self.may_connect(moment),
            Call::Subscribe { client, topic } => self.may_subscribe(moment, client, topic),
            Call::Unsubscribe { client, sub } => self.may_unsubscribe(moment, client, sub),
            Call::Publish {
                client,
                topic,
                message,
            } => self.may_publish(moment, client, topic, message),
            Call::Poll { client } => {
                self.with_client(moment, client)?;
                Ok(Call::Poll { client })
            }
            Call::PollNumbered { client, number } => {
                self.may_poll_numbered(moment, client, number)
            }
            Call::Disconnect { client } => {
                self.with_client(moment, client)?;
                Ok(Call::Disconnect { client })
            }
        }
    }

    fn may_connect(&self, moment: &Moment) -> Result<Call, Reply>
        ensures { result ≡ allowed (refusal (board_at moment.now self.now) Call.Connect) Call.Connect }
    {
        if self.staying(moment) >= MAX_CLIENTS as usize {
            return Err(Reply::Full(MAX_CLIENTS));
        }
        Ok(Call::Connect)
    }

    fn may_subscribe(&self, moment: &Moment, client: ClientId, topic: Topic) -> Result<Call, Reply>
        ensures { result ≡ allowed (refusal (board_at moment.now self.now) (Call.Subscribe client topic)) (Call.Subscribe client topic) }
    {
        self.with_client(moment, client)?;
        let topic = self.listed(moment, topic)?;
        if self.places_of(moment, client) >= MAX_SUBS as usize {
            return Err(Reply::TooManySubs(MAX_SUBS));
        }
        Ok(Call::Subscribe { client, topic })
    }

    fn may_unsubscribe(&self, moment: &Moment, client: ClientId, sub: SubId) -> Result<Call, Reply>
        ensures { result ≡ allowed (refusal (board_at moment.now self.now) (Call.Unsubscribe client sub)) (Call.Unsubscribe client sub) }
    {
        self.with_client(moment, client)?;
        if !self.has_sub(moment, client, sub) {
            return Err(Reply::NoSub(sub));
        }
        Ok(Call::Unsubscribe { client, sub })
    }

    fn may_publish(
        &self,
        moment: &Moment,
        client: ClientId,
        topic: Topic,
        message: Name,
    ) -> Result<Call, Reply>
        ensures { result ≡ allowed (refusal (board_at moment.now self.now) (Call.Publish client topic message)) (Call.Publish client topic message) }
    {
        self.with_client(moment, client)?;
        let topic = self.listed(moment, topic)?;
        if message.as_bytes().len() > MAX_MESSAGE as usize {
            return Err(Reply::TooLong(MAX_MESSAGE));
        }
        Ok(Call::Publish {
            client,
            topic,
            message,
        })
    }

    fn may_poll_numbered(
        &self,
        moment: &Moment,
        client: ClientId,
        number: u64,
    ) -> Result<Call, Reply>
        ensures { result ≡ allowed (refusal (board_at moment.now self.now) (Call.PollNumbered client number)) (Call.PollNumbered client number) }
    {
        self.with_client(moment, client)?;
        self.with_number(moment, client, number)?;
        Ok(Call::PollNumbered { client, number })
    }

    /// The number, if it is that of the client's next numbered poll, or that of its last one.
    fn with_number(&self, moment: &Moment, client: ClientId, number: u64) -> Result<u64, Reply>
        requires { is_connected client (board_at moment.now self.now).clients ≡ true }
        ensures { result ≡ allowed (number_refusal (last_of client (board_at moment.now self.now).clients) number) number }
    {
        let last = self.last_of(moment, client);
        if !is_next_or_last(last, number) {
            return Err(Reply::BadNumber(last));
        }
        Ok(number)
    }

    /// The client, if it is connected.
    fn with_client(&self, moment: &Moment, client: ClientId) -> Result<ClientId, Reply>
        ensures { result ≡ allowed (client_refusal (board_at moment.now self.now) client) client }
    {
        if !self.is_here(moment, client) {
            return Err(Reply::NoClient(client));
        }
        Ok(client)
    }

    /// The topic, if its destination is one of the broker's and its subtopic is not too long.
    fn listed(&self, moment: &Moment, topic: Topic) -> Result<Topic, Reply>
        ensures { result ≡ allowed (topic_refusal (board_at moment.now self.now) topic) topic }
    {
        if !self.has_destination(moment, &topic.destination) {
            return Err(Reply::NoTopic(topic.destination));
        }
        if topic.subtopic.as_bytes().len() > MAX_SUBTOPIC as usize {
            return Err(Reply::TooLong(MAX_SUBTOPIC));
        }
        Ok(topic)
    }

    /// How many clients are connected.
    fn staying(&self, moment: &Moment) -> usize
        ensures { result ≡ length (board_at moment.now self.now).clients }
    {
        self.lines.staying(&moment.expired)
    }

    fn is_here(&self, moment: &Moment, client: ClientId) -> bool
        ensures { result ≡ is_connected client (board_at moment.now self.now).clients }
    {
        !moment.expires(client) && self.lines.has_client(client)
    }

    /// The number of the client's last numbered poll, or 0.
    pub(crate) fn last_of(&self, moment: &Moment, client: ClientId) -> u64
        requires { is_connected client (board_at moment.now self.now).clients ≡ true }
        ensures { result ≡ last_of client (board_at moment.now self.now).clients }
    {
        self.lines.last_of(client)
    }

    fn has_destination(&self, moment: &Moment, destination: &Name) -> bool
        ensures { result ≡ list_any (bytes_eq destination.now) (board_at moment.now self.now).destinations }
    {
        is_listed(&self.destinations, destination)
    }

    fn has_sub(&self, moment: &Moment, client: ClientId, sub: SubId) -> bool
        requires { is_connected client (board_at moment.now self.now).clients ≡ true }
        ensures { result ≡ list_any (λ u. u.id == sub && u.client == client) (board_at moment.now self.now).subs }
    {
        self.lines.is_live(sub, client)
    }

    /// How many subscriptions of the client are live, or ended and are not yet told.
    fn places_of(&self, moment: &Moment, client: ClientId) -> usize
        requires { is_connected client (board_at moment.now self.now).clients ≡ true }
        ensures { result ≡ places_of client (board_at moment.now self.now) }
    {
        self.lines.live_of(client) + self.lines.untold_of(client)
    }
}
