//! What the lines of a text say, one after the other.

ghost use Rattle.std.specs.Prelude.{◌≡◌, Some, None, true, false, slice_index_or, [], ◌≢◌, ℕ, ◌+◌, ◌-◌, ◌*◌, ◌^◌, ◌<◌, ◌≤◌, length, IfOk};
ghost use Rattle.std.specs.Option.{ForSome};
ghost use Rattle.tsplex.specs.Text.{tokens};
ghost use Rattle.tspinst.specs.Keywords.{keyword_of};
ghost use Rattle.tspinst.specs.Texts.{place_of, has_seen, now_seen, is_repeated, said, keyword_line, display_data, node_coords, edge_weights, fixed_edges, end_of, lines, nothing_said};

use crate::edges::read_edges;
use crate::fixing::Fixing;
use crate::header::dimension;
use crate::keywords::{
    Format, Keyword, WeightType, find_format, find_keyword, find_weight_type, is,
};
use crate::points::{pass, read_points};
use crate::refusals::{Part, ReadError, Refusal};
use crate::table::Instance;
use crate::weights::read_weights;
use crate::words::{Header, Words};
use std::alloc::Global;

/// A keyword's place among the flags.
fn place(keyword: Keyword) -> usize
    ensures same { result ≡ place_of keyword }
    ensures bound { result < 13 }
{
    keyword as usize
}

/// What the text has said so far.
#[derive(Drop)]
pub struct State {
    seen: [bool; 13],
    dimension: Option<u32>,
    weight_type: Option<WeightType>,
    format: Option<Format>,
    instance: Option<Instance>,
    fixing: Option<Fixing>,
    ghost sized: { ForSome dimension (λ n. (3 ≤ n) × (n ≤ 2000)) },
    ghost of_instance: { ForSome instance (λ i. (dimension ≡ Some i.n) × (i.fixed ≡ [])) },
    ghost of_fixing: { ForSome fixing (λ f. dimension ≡ Some f.n) },
    ghost unsaid: { slice_index_or seen 3 false ≡ false → dimension ≡ None },
}

impl State {
    ghost use Rattle.tspinst.specs.Views.{Tells, said_of, pairs_read, IsRead};

    /// Before the first line.
    fn new() -> Self
        ensures { said_of result ≡ nothing_said }
    {
        State {
            seen: [false; 13],
            dimension: None,
            weight_type: None,
            format: None,
            instance: None,
            fixing: None,
        }
    }

    /// A section that is passed over.
    #[tactic(auto, unfolding(crate::specs::Texts::display_data))]
    fn hear_display_data(&mut self, words: &mut Words<'_>, line: u32) -> Result<(), ReadError>
        ensures { Tells result (said_of self.new, words.new) (display_data (said_of self.old) line words.old self.old.dimension) }
    {
        match self.dimension {
            Some(n) => Ok(pass(words, 3 * n)?),
            None => Err(ReadError::Refused(Refusal::Misplaced(line))),
        }
    }

    /// The points of all nodes.
    #[tactic(auto, unfolding(crate::specs::Texts::node_coords))]
    fn hear_node_coords(
        &mut self,
        alloc: Global,
        words: &mut Words<'_>,
        line: u32,
    ) -> Result<(), ReadError>
        ensures { Tells result (said_of self.new, words.new) (node_coords (said_of self.old) line words.old self.old.dimension self.old.weight_type) }
    {
        match (self.dimension, self.weight_type) {
            (Some(n), Some(WeightType::Explicit)) => Ok(pass(words, 3 * n)?),
            (Some(n), Some(WeightType::Points(kind))) => {
                let table = read_points(alloc, words, kind, n)?;
                self.instance = Some(Instance::of_table(alloc, n, table));
                Ok(())
            }
            _ => Err(ReadError::Refused(Refusal::Misplaced(line))),
        }
    }

    /// The weights of all pairs.
    #[tactic(auto, unfolding(crate::specs::Texts::edge_weights))]
    fn hear_edge_weights(
        &mut self,
        alloc: Global,
        words: &mut Words<'_>,
        line: u32,
    ) -> Result<(), ReadError>
        ensures { Tells result (said_of self.new, words.new) (edge_weights (said_of self.old) line words.old self.old.dimension self.old.weight_type self.old.format) }
    {
        match (self.dimension, self.weight_type, self.format) {
            (Some(_), Some(WeightType::Explicit), Some(Format::Function)) => {
                Err(ReadError::Refused(Refusal::WrongWeightFormat(line)))
            }
            (Some(n), Some(WeightType::Explicit), Some(format)) => {
                let table = read_weights(alloc, words, format, n)?;
                self.instance = Some(Instance::of_table(alloc, n, table));
                Ok(())
            }
            _ => Err(ReadError::Refused(Refusal::Misplaced(line))),
        }
    }

    /// Fixed pairs.
    #[tactic(auto, unfolding(crate::specs::Texts::fixed_edges))]
    fn hear_fixed_edges(
        &mut self,
        alloc: Global,
        words: &mut Words<'_>,
        line: u32,
    ) -> Result<(), ReadError>
        ensures { Tells result (said_of self.new, words.new) (fixed_edges (said_of self.old) line words.old self.old.dimension) }
    {
        match self.dimension {
            Some(n) => {
                self.fixing = Some(read_edges(alloc, words, n)?);
                Ok(())
            }
            None => Err(ReadError::Refused(Refusal::Misplaced(line))),
        }
    }

    /// What a line says by its keyword.
    #[tactic(auto, unfolding(crate::specs::Texts::said))]
    fn hear_keyword(
        &mut self,
        alloc: Global,
        words: &mut Words<'_>,
        line: u32,
        keyword: Keyword,
        value: &[u8],
    ) -> Result<(), ReadError>
        requires seen { has_seen self.old.seen keyword ≡ true }
        requires once { keyword ≡ Keyword.Dimension → self.old.dimension ≡ None }
        ensures { Tells result (said_of self.new, words.new) (said (said_of self.old) line value.now words.old keyword) }
    {
        match keyword {
            Keyword::Name | Keyword::Comment | Keyword::NodeCoordType | Keyword::DisplayDataType =>
                { Ok(()) }
            Keyword::Type => {
                if is(value, "TSP") {
                    Ok(())
                } else {
                    Err(ReadError::Refused(Refusal::WrongType(line)))
                }
            }
            Keyword::Dimension => match dimension(value) {
                Some(n) => {
                    self.dimension = Some(n);
                    Ok(())
                }
                None => Err(ReadError::Refused(Refusal::WrongDimension(line))),
            },
            Keyword::EdgeWeightType => match find_weight_type(value) {
                Some(weight_type) => {
                    self.weight_type = Some(weight_type);
                    Ok(())
                }
                None => Err(ReadError::Refused(Refusal::WrongWeightType(line))),
            },
            Keyword::EdgeWeightFormat => match find_format(value) {
                Some(format) => {
                    self.format = Some(format);
                    Ok(())
                }
                None => Err(ReadError::Refused(Refusal::WrongWeightFormat(line))),
            },
            Keyword::NodeCoordSection => self.hear_node_coords(alloc, words, line),
            Keyword::EdgeWeightSection => self.hear_edge_weights(alloc, words, line),
            Keyword::DisplayDataSection => self.hear_display_data(words, line),
            Keyword::FixedEdgesSection => self.hear_fixed_edges(alloc, words, line),
            Keyword::Eof => {
                words.clear();
                Ok(())
            }
        }
    }

    /// Whether a keyword stands where it may not stand again.
    fn is_again(&self, keyword: Keyword) -> bool
        ensures { result ≡ is_repeated self.now.seen keyword }
    {
        place(keyword) != place(Keyword::Comment) && self.seen[place(keyword)]
    }

    /// What a line says.
    #[tactic(auto, unfolding(crate::specs::Texts::keyword_line))]
    fn hear(
        &mut self,
        alloc: Global,
        words: &mut Words<'_>,
        header: Header<'_>,
    ) -> Result<(), ReadError>
        ensures { Tells result (said_of self.new, words.new) (keyword_line (said_of self.old) header.entry.line header.entry.value.now words.old (keyword_of header.entry.name.now)) }
    {
        match find_keyword(header.name) {
            Some(keyword) => {
                if self.is_again(keyword) {
                    return Err(ReadError::Refused(Refusal::Repeated(header.line)));
                }
                self.seen[place(keyword)] = true;
                self.hear_keyword(alloc, words, header.line, keyword, header.value)
            }
            None => Err(ReadError::Refused(Refusal::UnknownKeyword(header.line))),
        }
    }

    /// The instance with the pairs that a section fixed, if there was one.
    fn with_fixing(instance: Instance, fixing: Option<Fixing>) -> Instance
        requires bare { instance.fixed ≡ [] }
        requires same { ForSome fixing (λ f. f.n ≡ instance.n) }
        ensures { result ≡ record { n = instance.n; table = instance.table; fixed = pairs_read fixing } }
    {
        match fixing {
            Some(fixing) => instance.hold(fixing),
            None => instance,
        }
    }

    /// The instance, if nothing is missing.
    fn end(self) -> Result<Instance, ReadError>
        ensures { IsRead result (end_of (said_of self)) }
    {
        if !self.seen[place(Keyword::Type)] {
            return Err(ReadError::Refused(Refusal::Missing(Part::Type)));
        }
        match (self.dimension, self.weight_type, self.instance) {
            (Some(_), Some(_), Some(instance)) => Ok(State::with_fixing(instance, self.fixing)),
            (Some(_), Some(_), None) => Err(ReadError::Refused(Refusal::Missing(Part::Distances))),
            (Some(_), None, _) => Err(ReadError::Refused(Refusal::Missing(Part::EdgeWeightType))),
            (None, _, _) => Err(ReadError::Refused(Refusal::Missing(Part::Dimension))),
        }
    }

    /// What a text of at most 2^26 bytes says.
    #[tactic(auto, using(crate::proofs::LineLemmas::line_steps))]
    pub fn read(alloc: Global, bytes: &[u8]) -> Result<Instance, ReadError>
        requires { length bytes.now ≤ 2 ^ 26 }
        ensures { IsRead result (lines (length bytes.now) nothing_said (tokens bytes.now)) }
    {
        let mut words = Words::new(bytes);
        let mut state = State::new();
        for _i in 0..bytes.len() {
            match words.header() {
                Some(header) => match state.hear(alloc, &mut words, header) {
                    Ok(()) => {}
                    Err(error) => return Err(error),
                },
                None => return state.end(),
            }
        }
        state.end()
    }
}
