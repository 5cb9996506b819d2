// Shares of the goals of a round, one of which a job walks.
use crate::judging::{Round, asking_site};
use sm_expand::Due;
use std::alloc::{AllocError, Global};

/// Goals of one node that a job walks: of so many in turn the one from a place on, but for those that
/// are refuted at the leading node.
#[derive(Clone, Copy)]
pub(crate) struct Share {
    pub(crate) job: u64,
    pub(crate) place: usize,
    pub(crate) lead: usize,
    pub(crate) first: usize,
    pub(crate) step: usize,
}

// For each place of a round the site that it asks anew.
fn sites_of(alloc: Global, round: &Round<'_>) -> Result<Vec<Option<usize>>, AllocError> {
    let mut sites = Vec::new(alloc);
    for place in 0..round.dues.len() {
        sites.push(asking_site(round, place))?;
    }
    Ok(sites)
}

// The leading place of each of so many sites: the last that asks it anew.
fn leading_places(
    alloc: Global,
    sites: &[Option<usize>],
    count: usize,
) -> Result<Vec<usize>, AllocError> {
    let mut leading = Vec::new(alloc);
    for _ in 0..count {
        leading.push(0)?;
    }
    for place in 0..sites.len() {
        if let Some(site) = sites[place] {
            if site < leading.len() {
                leading[site] = place;
            }
        }
    }
    Ok(leading)
}

// For each place of a round the one that leads the site that it asks anew.
fn leads_of(
    alloc: Global,
    sites: &[Option<usize>],
    leading: &[usize],
) -> Result<Vec<Option<usize>>, AllocError> {
    let mut leads = Vec::new(alloc);
    for site in sites {
        match site {
            Some(site) => leads.push(leading.get(*site).copied())?,
            None => leads.push(None)?,
        }
    }
    Ok(leads)
}

/// For each place of a round the leading one of the site that it asks anew.
pub(crate) fn leads_in(alloc: Global, round: &Round<'_>) -> Result<Vec<Option<usize>>, AllocError> {
    let sites = sites_of(alloc, round)?;
    let leading = leading_places(alloc, &sites, round.owners.sites)?;
    leads_of(alloc, &sites, &leading)
}

// Puts shares of what a leading node asks behind others, one for each of so many jobs.
fn put_shares(shares: &mut Vec<Share>, place: usize, jobs: usize) -> Result<(), AllocError> {
    for job in 0..jobs {
        shares.push(Share {
            job: job as u64,
            place,
            lead: place,
            first: job,
            step: jobs,
        })?;
    }
    Ok(())
}

/// Shares of what leading nodes ask, one of each for each job, where it asks so much.
pub(crate) fn leading_shares(
    alloc: Global,
    leads: &[Option<usize>],
    dues: &[Due],
    jobs: u32,
) -> Result<Vec<Share>, AllocError> {
    let mut shares = Vec::new(alloc);
    for place in 0..leads.len() {
        if leads[place] == Some(place) && place < dues.len() {
            let goals = dues[place].targets.list.len();
            put_shares(&mut shares, place, goals.min(jobs as usize))?;
        }
    }
    Ok(shares)
}

/// All that the other nodes ask, dealt to jobs node by node.
pub(crate) fn other_shares(
    alloc: Global,
    leads: &[Option<usize>],
    jobs: u32,
) -> Result<Vec<Share>, AllocError> {
    let mut shares = Vec::new(alloc);
    let mut job: u64 = 0;
    for place in 0..leads.len() {
        if let Some(lead) = leads[place] {
            if lead != place {
                shares.push(Share {
                    job,
                    place,
                    lead,
                    first: 0,
                    step: 1,
                })?;
                job = job.saturating_add(1);
                if job >= jobs as u64 {
                    job = 0;
                }
            }
        }
    }
    Ok(shares)
}

/// How many jobs have shares.
pub(crate) fn jobs_with(shares: &[Share]) -> u64 {
    let mut jobs: u64 = 0;
    for share in shares {
        jobs = jobs.max(share.job.saturating_add(1));
    }
    jobs
}
