//! The tables by which a text takes the fewest segments.

ghost use Rattle.std.specs.Prelude.{◌≡◌, ◌≢◌, ◌∷◌, ◌++◌, [], List, map, IfOk, IfErr, MatchBool, Err};
ghost use Rattle.std.specs.Str.{chars};
ghost use Rattle.sms_join.specs.declared.cut.SplitFault.TheVariants.{TooManySegments, Memory};
ghost use Rattle.sms_join.specs.UnitsOfText.{alphabet_of};
ghost use Rattle.sms_join.specs.UnitsOfText as units;
ghost use Rattle.sms_national.specs.Choice.{Choice, Under, Wide, choices, TakeTooMany, AreFewest};
ghost use Rattle.sms_national.specs.Choice as choice;
ghost use Rattle.sms_national.specs.Inside.Best.{IsBest, IsFewer, IsFewerWide, AreBestOf};

use crate::cut::cut_under;
use crate::laws::national_cuts_are_one;
use crate::segments::NationalSegments;
use sms_join::{Segments, SplitFault, cut_text, texts_have_one_cut};
use sms_language::{Locking, Single, Tables};
use sms_text::gsm_of;
use sms_tpdu::Width;
use std::alloc::{AllocError, Global};

/// A language that has tables (3GPP TS 23.038, annex A).
#[derive(Clone, Copy, Debug, PartialEq, Eq, Hash)]
pub enum Language {
    Turkish,
    /// It has no table of a code alone.
    Spanish,
    Portuguese,
}

/// The segments of a text by the tables that take the fewest, or in UCS-2.
#[derive(Drop)]
pub enum LanguageSegments {
    Septets(NationalSegments),
    Ucs2(Segments),
}

const DEFAULT: Tables = Tables {
    locking: Locking::Default,
    single: Single::Default,
};

const TURKISH_SINGLE: Tables = Tables {
    locking: Locking::Default,
    single: Single::Turkish,
};

const TURKISH_LOCKING: Tables = Tables {
    locking: Locking::Turkish,
    single: Single::Default,
};

const TURKISH_BOTH: Tables = Tables {
    locking: Locking::Turkish,
    single: Single::Turkish,
};

const SPANISH_SINGLE: Tables = Tables {
    locking: Locking::Default,
    single: Single::Spanish,
};

const PORTUGUESE_SINGLE: Tables = Tables {
    locking: Locking::Default,
    single: Single::Portuguese,
};

const PORTUGUESE_LOCKING: Tables = Tables {
    locking: Locking::Portuguese,
    single: Single::Default,
};

const PORTUGUESE_BOTH: Tables = Tables {
    locking: Locking::Portuguese,
    single: Single::Portuguese,
};

static TURKISH: [Tables; 4] = [DEFAULT, TURKISH_SINGLE, TURKISH_LOCKING, TURKISH_BOTH];

static SPANISH: [Tables; 2] = [DEFAULT, SPANISH_SINGLE];

static PORTUGUESE: [Tables; 4] = [
    DEFAULT,
    PORTUGUESE_SINGLE,
    PORTUGUESE_LOCKING,
    PORTUGUESE_BOTH,
];

static ALL: [Tables; 8] = [
    DEFAULT,
    TURKISH_SINGLE,
    TURKISH_LOCKING,
    SPANISH_SINGLE,
    PORTUGUESE_SINGLE,
    PORTUGUESE_LOCKING,
    TURKISH_BOTH,
    PORTUGUESE_BOTH,
];

/// The tables of a language, in the order in which they are tried; those of all where none is given.
fn tables_in(language: Option<Language>) -> &'static [Tables]
    ensures { result.now ≡ choice.tables_in language }
{
    match language {
        Some(Language::Turkish) => &TURKISH,
        Some(Language::Spanish) => &SPANISH,
        Some(Language::Portuguese) => &PORTUGUESE,
        None => &ALL,
    }
}

/// The segments that are fewer; of as many the earlier ones.
fn fewer(best: Option<NationalSegments>, cut: NationalSegments) -> NationalSegments
    ensures { IsFewer best cut result }
{
    match best {
        Some(best) if best.len() <= cut.len() => best,
        _ => cut,
    }
}

/// The best of the choices before and of these tables.
fn or_under(
    alloc: Global,
    text: &str,
    tables: Tables,
    width: Width,
    best: Option<NationalSegments>,
) -> Result<Option<NationalSegments>, SplitFault>
    ensures best { IfOk result (λ found. (all : List Choice)
        → IsBest width (chars text.now) all best
        → IsBest width (chars text.now) (all ++ Under tables ∷ []) found) }
    ensures fault { IfErr result (λ fault. fault ≡ Memory) }
{
    national_cuts_are_one();
    match cut_under(alloc, text, tables, width) {
        Ok(Some(cut)) => Ok(Some(fewer(best, cut))),
        Ok(None) => Ok(best),
        Err(SplitFault::TooManySegments) => Ok(best),
        Err(SplitFault::Memory) => Err(SplitFault::Memory),
    }
}

/// The best of these tables.
fn best_under(
    alloc: Global,
    text: &str,
    order: &[Tables],
    width: Width,
) -> Result<Option<NationalSegments>, SplitFault>
    ensures best { IfOk result (IsBest width (chars text.now) (map Under order.now)) }
    ensures fault { IfErr result (λ fault. fault ≡ Memory) }
{
    let mut best = None;
    for tables in order {
        best = or_under(alloc, text, *tables, width, best)?;
    }
    Ok(best)
}

/// The segments that were best, if there are any.
fn septets_of(best: Option<NationalSegments>) -> Result<LanguageSegments, SplitFault>
    ensures { AreBestOf best result }
{
    match best {
        Some(cut) => Ok(LanguageSegments::Septets(cut)),
        None => Err(SplitFault::TooManySegments),
    }
}

/// The segments that are fewer; of as many those of septets.
fn fewer_ucs2(best: Option<NationalSegments>, segments: Segments) -> LanguageSegments
    ensures { IsFewerWide best segments result }
{
    match best {
        Some(cut) if cut.len() <= segments.len() => LanguageSegments::Septets(cut),
        _ => LanguageSegments::Ucs2(segments),
    }
}

/// Whether the default alphabet has all characters of a text.
fn has_septets(alloc: Global, text: &str) -> Result<bool, AllocError>
    ensures { IfOk result (λ has. MatchBool has
        (alphabet_of (chars text.now) ≢ units.Wide)
        (alphabet_of (chars text.now) ≡ units.Wide)) }
{
    match gsm_of(alloc, text)? {
        Some(_) => Ok(true),
        None => Ok(false),
    }
}

/// The best of the choices before and of UCS-2, which is one where the default alphabet lacks a
/// character.
fn or_ucs2(
    alloc: Global,
    text: &str,
    width: Width,
    best: Option<NationalSegments>,
) -> Result<LanguageSegments, SplitFault>
    ensures fewest { IfOk result (λ made. (all : List Choice)
        → IsBest width (chars text.now) all best
        → AreFewest width (chars text.now) (all ++ Wide ∷ []) made) }
    ensures too_many { result ≡ Err TooManySegments → (all : List Choice)
        → IsBest width (chars text.now) all best
        → TakeTooMany width (chars text.now) (all ++ Wide ∷ []) }
{
    national_cuts_are_one();
    texts_have_one_cut();
    if has_septets(alloc, text)? {
        return septets_of(best);
    }
    match cut_text(alloc, text, width) {
        Ok(segments) => Ok(fewer_ucs2(best, segments)),
        Err(SplitFault::TooManySegments) => septets_of(best),
        Err(SplitFault::Memory) => Err(SplitFault::Memory),
    }
}

/// The segments of a text by the first of these that takes the fewest: the default alphabet, the
/// tables of the language that one element tells (the single shift table, then the locking shift
/// table), those that two elements tell, and UCS-2; where no language is given, the tables of
/// Turkish, Spanish and Portuguese, in this order, those of one element before those of two.
///
/// UCS-2 is a choice where the default alphabet lacks a character.
pub fn cut_fewest(
    alloc: Global,
    text: &str,
    language: Option<Language>,
    width: Width,
) -> Result<LanguageSegments, SplitFault>
    ensures fewest { IfOk result
        (AreFewest width (chars text.now) (choices language)) }
    ensures too_many { result ≡ Err TooManySegments
        → TakeTooMany width (chars text.now) (choices language) }
{
    let best = best_under(alloc, text, tables_in(language), width)?;
    or_ucs2(alloc, text, width, best)
}
