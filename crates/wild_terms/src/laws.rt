//! Laws of symbolic loading.
ghost use Rattle.wild_terms.specs.Laws.{TermsAreLoaded, SumsAreValues, DifferencesAreValues, SameTermsAreEqual};

/// In every world of an outline an image with terms can be loaded, and its memory has the values of the terms.
pub fn terms_are_loaded()
    ensures { TermsAreLoaded }
{}

/// Sums and differences of terms are those of their values, and terms that are the same are equal.
pub fn terms_have_values()
    ensures sums { SumsAreValues }
    ensures differences { DifferencesAreValues }
    ensures same { SameTermsAreEqual }
{}
