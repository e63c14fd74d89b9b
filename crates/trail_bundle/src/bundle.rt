// A bundle: the trails of many requests as one map.
ghost use Rattle.std.specs.Prelude.{◌≡◌, [], IfErr, IfOk, OnErr, OnOk, length};
ghost use Rattle.tree_core.specs.Tree.{Agrees, Files};
ghost use Rattle.trail_bundle.specs.declared.replay_error.BundleReplayError.TheVariants as error;
ghost use Rattle.trail_bundle.specs.Adding.{IsAdded, IsRefusedBy, request_for};
ghost use Rattle.trail_bundle.specs.Bundle.{AreReplies, IsBundle};
ghost use Rattle.trail_bundle.specs.BundleText.{bundle_text};
ghost use Rattle.trail_bundle.specs.Decoding.{IsWrongBy};
ghost use Rattle.trail_bundle.specs.Parts.{IfLine};
ghost use Rattle.trail_bundle.specs.Replaying.{AllStandIn, AreReplayed, IsNotRecorded};
ghost use Rattle.trail_bundle.specs.Steps.{steps_of};

use crate::decode::{read_counts, read_replies, read_requests};
use crate::encode::{line_of_counts, write_replies, write_requests};
use crate::ordered::Replies;
use crate::replaying::{replay_each, trail_of};
use crate::replies::{check_all, put_all};
use crate::text_lines::TextLines;
use crate::{BundleError, BundleReplayError, BundleRequest, DecodeError};
use resolve_stack::{Project, Verdict};
use std::alloc::{AllocError, Global};
use std::collections::BTreeMap;
use sugar_path::Text;
use swc_loader::FileName;
use tree_core::Trail;

/// Requests in order, and the replies that decide them.
#[derive(Drop)]
pub struct Bundle {
    alloc: Global,
    requests: Vec<BundleRequest>,
    replies: Replies,
    ghost are: { AreReplies (steps_of replies.entries) },
}

impl Bundle {
    ghost use Rattle.trail_bundle.specs.BundleView.{bundle_of};

    /// The bundle of no requests.
    pub fn new(alloc: Global) -> Bundle
        ensures { bundle_of result ≡ record { requests = []; replies = [] } }
    {
        Bundle {
            alloc,
            requests: Vec::new(alloc),
            replies: BTreeMap::new(alloc),
        }
    }

    /// Its requests, in the order in which they were added.
    pub fn requests(&self) -> &[BundleRequest]
        ensures { result.now ≡ (bundle_of self.now).requests }
    {
        self.requests.as_slice()
    }

    /// To how many questions it has replies.
    pub fn questions(&self) -> usize
        ensures count { result ≡ length (bundle_of self.now).replies }
        // What it holds is a bundle at any time.
        ensures valid { IsBundle (bundle_of self.now) }
    {
        self.replies.len()
    }

    /// Adds a request with its trail. It is refused where the trail's first reply to a question is another one than the
    /// bundle's. After a refusal the bundle is as before.
    pub fn add(
        &mut self,
        importer: &FileName,
        specifier: &str,
        trail: &Trail,
    ) -> Result<(), BundleError>
        ensures ok { OnOk result (IsAdded (request_for importer.now specifier.now) trail.now
            (bundle_of self.old) (bundle_of self.new)) }
        ensures refused { IfErr result (λ e. IsRefusedBy e (bundle_of self.old).replies trail.now) }
        ensures err { OnErr result (bundle_of self.new ≡ bundle_of self.old) }
    {
        check_all(self.alloc, &self.replies, trail)?;
        let request = BundleRequest {
            importer: importer.try_clone(self.alloc)?,
            specifier: Text::of(self.alloc, specifier)?,
        };
        self.requests.push(request)?;
        if put_all(self.alloc, &mut self.replies, trail).is_err() {
            drop(self.requests.pop());
            return Err(BundleError::NoMemory);
        }
        Ok(())
    }

    /// The verdict of each of its requests in a project, in order, by its replies alone.
    pub fn replay_all(
        &self,
        alloc: Global,
        project: &Project<'_>,
    ) -> Result<Vec<Verdict>, BundleReplayError>
        ensures ok { IfOk result (λ verdicts. AreReplayed verdicts.items
            (bundle_of self.now).replies project.now (bundle_of self.now).requests) }
        ensures refused { IfErr result (λ e. IsNotRecorded e
            (bundle_of self.now).replies project.now (bundle_of self.now).requests) }
        // Where a tree agrees with the bundle, and the tree's own trails stand there, each request is replayed.
        ensures whole { (t : Files) → Agrees t (bundle_of self.now).replies
            → AllStandIn (bundle_of self.now).replies t project.now (bundle_of self.now).requests
            → IfErr result (λ e. e ≡ error.NoMemory) }
    {
        let trail = trail_of(alloc, &self.replies)?;
        replay_each(alloc, project, &trail, self.requests.as_slice())
    }

    /// Its text.
    #[tactic(auto, unfolding(crate::specs::BundleText::bundle_text))]
    pub fn encode(&self, alloc: Global) -> Result<Text, AllocError>
        ensures { IfOk result (λ text. text ≡ bundle_text (bundle_of self.now)) }
    {
        let mut text = line_of_counts(alloc, self.requests.len(), self.questions())?;
        write_requests(alloc, &mut text, self.requests.as_slice())?;
        write_replies(alloc, &mut text, &self.replies)?;
        Ok(Text::from(text))
    }

    /// The bundle that a text is.
    pub fn decode(alloc: Global, text: &str) -> Result<Bundle, DecodeError>
        ensures ok { IfOk result (λ b. text.now ≡ bundle_text (bundle_of b)) }
        ensures valid { IfOk result (λ b. IsBundle (bundle_of b)) }
        ensures wrong { IfErr result (λ e. IfLine e (λ line. IsWrongBy line text.now)) }
    {
        let mut lines = TextLines::of(text);
        let counts = read_counts(&mut lines)?;
        let requests = read_requests(alloc, &mut lines, counts.requests)?;
        let replies = read_replies(alloc, &mut lines, counts.replies)?;
        if !lines.is_empty() {
            return Err(DecodeError::NotABundle {
                line: lines.number(),
            });
        }
        Ok(Bundle {
            alloc,
            requests,
            replies,
        })
    }
}
