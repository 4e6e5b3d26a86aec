//! What holds of a fleet as streams of bytes.
ghost use Rattle.mr_streams.specs.Beginning.{SetupsStart};
ghost use Rattle.mr_streams.specs.Canary.{NoCanaryConvicts, SetsArePerformedOnce};
ghost use Rattle.mr_streams.specs.Flushing.{FlushesPutTexts};
ghost use Rattle.mr_streams.specs.Halves.{BytesAreSafe, ClientsAreServed};
ghost use Rattle.mr_streams.specs.Headline.{HeadlineOverBytes};
ghost use Rattle.mr_streams.specs.Issuing.{RequestsAreIssuedAsTheyCome};
ghost use Rattle.mr_streams.specs.OneLink.{RepliesComeBack, LinksGiveUp};
ghost use Rattle.mr_streams.specs.OneNode.{RequestsAreDelivered};
ghost use Rattle.mr_streams.specs.Refines.{RefinesWorld};

use mr_canary::laws::no_false_alarm;
use mr_phases::laws::hop_within;
use mr_proxy::laws::{fresh_is_sound, sheets_say};
use mr_text::laws::{
    canonical_reply_is_read, canonical_request_is_read, no_request_is_refused,
    nothing_is_unfinished, replies_are_prefix_free, requests_are_prefix_free,
    skipped_lines_are_refused,
};
use mr_world::headline::headline;
use mr_world::laws::{
    setups_begin_faithful, setups_begin_tracked, steps_keep_faithful, steps_keep_tracked,
};

/// Whatever bytes come over a link, in whatever pieces: each reply is that of its leg, and what the core makes of them is some
/// events of the world, in which a leg may fail.
pub fn replies_come_back()
    ensures { RepliesComeBack }
{
    replies_are_prefix_free();
    canonical_reply_is_read();
}

/// What a link that breaks does to the core is some events of the world.
pub fn links_give_up()
    ensures { LinksGiveUp }
{}

/// Whatever bytes reach a node over a connection, in whatever pieces: each request that is whole is the message of its leg,
/// delivered, and its reply is on its way back behind the others.
pub fn requests_are_delivered()
    ensures { RequestsAreDelivered }
{
    requests_are_prefix_free();
    canonical_request_is_read();
    no_request_is_refused();
    skipped_lines_are_refused();
    nothing_is_unfinished();
}

/// Whatever happens to streams from a fresh start on, events of the world, in which a leg may fail, come to the same cores and the same
/// nodes at the same readings, and to a history that tells all that happened in the streams: in whatever pieces bytes travel,
/// whenever connections are made, break or are left with bytes on their way, whichever nodes and proxies restart, and wherever
/// memory is refused.
pub fn streams_refine_the_world()
    ensures { RefinesWorld }
{
    replies_are_prefix_free();
    canonical_reply_is_read();
    requests_are_prefix_free();
    canonical_request_is_read();
    no_request_is_refused();
    skipped_lines_are_refused();
    nothing_is_unfinished();
    sheets_say();
    hop_within();
}

/// Whatever happens to streams from a fresh start on: where the four premises hold of the readings at which requests are issued, each
/// hit that is put to the bytes of any client was stored by a set of that key before that, and after the issue of every delete of
/// that key whose acknowledgement was put to the bytes of any client before the get was issued.
pub fn bytes_are_safe()
    ensures { BytesAreSafe }
{
    headline();
    streams_refine_the_world();
}

/// Whatever happens: the bytes that a client was told, and those that it is to be told next, are the texts of the answers to the
/// first of the requests that its bytes spell, in their order, and each of these answers stands in the history.
pub fn clients_are_served()
    ensures { ClientsAreServed }
{}

/// A request is issued when it becomes due to its client, which is when its bytes come or later: so a get that comes once an
/// acknowledgement was told is issued behind that.
pub fn requests_are_issued_as_they_come()
    ensures { RequestsAreIssuedAsTheyCome }
{}

/// The headline over bytes. Whatever pieces bytes travel in, whenever connections are made, break or are left with bytes on their
/// way, whichever nodes and proxies restart, and wherever memory is refused: where the four premises hold, each hit in the bytes that
/// any client is told is fresh, and what each client is told are the answers of the history to its requests, in their order.
pub fn headline_over_bytes()
    ensures { HeadlineOverBytes }
{
    bytes_are_safe();
    clients_are_served();
}

/// Each leg of a set is performed at most once, before the set is answered. Whatever happens to streams while the four premises hold: where
/// each value is that of one set, no node stores it any more once that set was answered with STORED.
pub fn sets_are_performed_once()
    ensures { SetsArePerformedOnce }
{
    streams_refine_the_world();
    replies_are_prefix_free();
    canonical_reply_is_read();
    requests_are_prefix_free();
    canonical_request_is_read();
    no_request_is_refused();
    skipped_lines_are_refused();
    nothing_is_unfinished();
    sheets_say();
    hop_within();
    fresh_is_sound();
    setups_begin_tracked();
    setups_begin_faithful();
    steps_keep_tracked();
    steps_keep_faithful();
}

/// A canary's conviction is no false alarm. Whatever happens to streams while the four premises hold: where each value is that of one set,
/// no hit convicts in what clients note of what they were told.
pub fn no_canary_convicts()
    ensures { NoCanaryConvicts }
{
    bytes_are_safe();
    sets_are_performed_once();
    no_false_alarm();
}

/// What a loop does at a flush is what streams do where requests are answered.
pub fn flushes_put_texts()
    ensures { FlushesPutTexts }
{}

/// Streams begin: there is a fresh start for each setup, whatever the limits of its loops.
pub fn setups_start()
    ensures { SetupsStart }
{}
