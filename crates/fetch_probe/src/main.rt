//! `fetch_probe URL`: fetches one URL over the script in the folder that it runs in, prints the line of that candidate,
//! and leaves what was sent in `net.trace`. It is for authors of scripts, and for measuring what a fetch costs.
//!
//! `net.txt` is the script, and the folders of `media/` are the volumes. The exit status is 0 for a body, 1 for a miss, 2
//! for other words than one URL, and 3 where a file can't be read or written, the script can't be played, or memory runs
//! out.
#![tactic(auto)]

ghost use Rattle.std.specs.Prelude.{◌≡◌, [], IfOk};

use bd_dev::{Bytes, Media, Sink, Source, read_source, write_all};
use bd_file::{FileSink, FileSource, FolderMedia, OutSink};
use bd_text::Mac;
use fetch_text::{found_line, miss_line};
use find_fetch::{Fetched, Fetcher, Plain};
use net_script::{ScriptNet, read_script};
use std::alloc::Global;
use std::env;
use std::process::ExitCode;
use std::rt::{Env, Files};
use url_waterfall::{Candidate, Place};

/// How a run that fetches nothing ends.
enum Stop {
    Usage,
    Failed,
}

/// The most bytes of a script, and one more.
const ENOUGH: usize = 16_777_217;

/// The URL, where the words after the program's name are just one.
fn url(rt: &(impl Env + AllocGlobal)) -> Result<String, Stop> {
    let Ok(words) = env::args(rt) else {
        return Err(Stop::Usage);
    };
    let mut words = words.skip(1);
    match (words.next(), words.next()) {
        (Some(url), None) => Ok(url),
        _ => Err(Stop::Usage),
    }
}

/// The network at time 0 of the script that the source gives, with the files that it serves.
fn network<S: Source, M: Media>(
    alloc: Global,
    source: &mut S,
    media: &mut M,
) -> Result<ScriptNet, Stop>
    ensures begins { IfOk result (λ net. (net.time ≡ 0) × (net.flows ≡ [])) }
{
    let Ok(text) = read_source(alloc, source, ENOUGH) else {
        return Err(Stop::Failed);
    };
    let Ok(script) = read_script(alloc, text.as_slice()) else {
        return Err(Stop::Failed);
    };
    match ScriptNet::new(alloc, script, Mac { bytes: [0; 6] }, media) {
        Ok(net) => Ok(net),
        Err(_) => Err(Stop::Failed),
    }
}

/// Fetches the URL in round 1. Gives its line, and whether it has a body.
fn fetch<M: Media, T: Sink>(
    alloc: Global,
    net: &mut ScriptNet,
    media: &mut M,
    trace: &mut T,
    url: &[u8],
) -> Result<(Bytes, bool), Stop>
    requires begins { (net.old.time ≡ 0) × (net.old.flows ≡ []) }
{
    let Ok(shown) = Bytes::from_slice(alloc, url) else {
        return Err(Stop::Failed);
    };
    let candidate = Candidate {
        place: Place::Url,
        shown,
    };
    let mut plain = Plain { net, media, trace };
    let (line, found) = match plain.fetch(alloc, 1, &candidate) {
        Ok(Fetched::Body(body)) => (found_line(alloc, url, body.as_slice().len() as u64), true),
        Ok(Fetched::Miss(miss)) => (miss_line(alloc, url, miss), false),
        Err(_) => return Err(Stop::Failed),
    };
    match line {
        Ok(line) => Ok((line, found)),
        Err(_) => Err(Stop::Failed),
    }
}

fn run(rt: &(impl Env + Files + Print + AllocGlobal + Clone + Drop)) -> Result<bool, Stop> {
    let alloc = rt.alloc();
    let url = url(rt)?;
    let mut media = FolderMedia::new(rt, "media");
    let mut net = network(alloc, &mut FileSource::new(rt, "net.txt"), &mut media)?;
    let mut trace = FileSink::new(rt, "net.trace");
    trace.make_anew();
    let (line, found) = fetch(alloc, &mut net, &mut media, &mut trace, url.as_bytes())?;
    match write_all(&mut OutSink::new(rt), line.as_slice()) {
        Ok(()) => Ok(found),
        Err(_) => Err(Stop::Failed),
    }
}

fn main(rt: HostRuntime) -> ExitCode {
    ExitCode::from(match run(&rt) {
        Ok(true) => 0,
        Ok(false) => 1,
        Err(Stop::Usage) => 2,
        Err(Stop::Failed) => 3,
    })
}
