// What a store is made as: salts are drawn, and its spaces, header and homes follow.
ghost use Rattle.std.specs.Prelude.{◌≡◌, ◌≤◌, ◌+◌, ◌-◌, IfOk, OnOk, length, map, take, replicate, ◌∷◌, []};
ghost use Rattle.aes_core.specs.Cipher.{AreBytes};
ghost use Rattle.rand_core.specs.Stream.{fill_bytes};
ghost use Rattle.space_head.specs.declared.space.Home.TheVariants.{Unused, Clean};
ghost use Rattle.store_form.specs.Made.{AreMadeInfos, IsMadeInfo};
ghost use Rattle.store_form.specs.Plan.{IsDrawnTo, after_salts, held_plan, homes_made, info_made, infos_drawn};
ghost use Rattle.store_form.specs.Said.{header_said, space_said};
ghost use Rattle.store_files.specs.Header.{most_spaces};

use crate::first_page::known_info;
use crate::space_list::MOST_SPACES;
use crate::{Header, HeaderSpace, HomeList, Homes, SpacePlan, StorePlan};
use rand_core::Rng;
use space_head::{Home, SpaceInfo};
use std::alloc::{AllocError, Global};

// The format that is made.
const FORMAT: u32 = 2;

pub(crate) fn known_bytes(bytes: &[u8])
    ensures { AreBytes bytes.now }
{}

// The fields of a space are of their types.
fn known_space(info: &SpaceInfo)
    ensures { IsMadeInfo info.now }
{
    known_info(info);
    known_bytes(&info.salt);
}

pub(crate) fn draw_salt<R: Rng>(rng: &mut R) -> [u8; 16]
    ensures { (result, R.stream rng.new) ≡ fill_bytes 16 (R.stream rng.old) }
{
    let mut salt = [0; 16];
    rng.fill_bytes(&mut salt);
    salt
}

// A space as it is made, with its salt.
fn info_of(active: u32, plan: &SpacePlan, salt: [u8; 16]) -> SpaceInfo
    ensures { result ≡ info_made active plan.now salt }
{
    SpaceInfo {
        space: plan.space,
        pages: plan.pages,
        key_id: plan.key_id,
        salt,
        ciphered: plan.ciphered,
        floor: if plan.ciphered { active } else { 0 },
    }
}

// Draws a salt for each space, in order.
#[tactic(auto, using(crate::proofs::PlanLaws::no_salt))]
pub(crate) fn draw_spaces<R: Rng>(
    alloc: Global,
    rng: &mut R,
    active: u32,
    plans: &[SpacePlan],
) -> Result<Vec<SpaceInfo>, AllocError>
    ensures drawn { IfOk result (λ spaces. spaces.items ≡ infos_drawn active plans.now (R.stream rng.old)) }
    ensures made { IfOk result (λ spaces. AreMadeInfos spaces.items) }
    ensures all { OnOk result (R.stream rng.new ≡ after_salts (length plans.now) (R.stream rng.old)) }
    ensures left { IsDrawnTo (length plans.now) (R.stream rng.old) (R.stream rng.new) }
{
    let mut spaces = Vec::new(alloc);
    for i in 0..plans.len() {
        let salt = draw_salt(rng);
        let info = info_of(active, &plans[i], salt);
        known_space(&info);
        spaces.push(info)?;
    }
    Ok(spaces)
}

fn header_space(plan: &SpacePlan) -> HeaderSpace
    ensures { space_said result ≡ held_plan plan.now }
{
    HeaderSpace {
        space: plan.space,
        pages: plan.pages,
        key_id: plan.key_id,
    }
}

fn header_spaces(plans: &[SpacePlan]) -> [HeaderSpace; MOST_SPACES]
    requires { length plans.now ≤ most_spaces }
    ensures { map space_said (take (length plans.now) result) ≡ map held_plan plans.now }
{
    let mut spaces = [HeaderSpace {
        space: 0,
        pages: 0,
        key_id: 0,
    }; MOST_SPACES];
    for i in 0..plans.len() {
        spaces[i] = header_space(&plans[i]);
    }
    spaces
}

// The header of a store of this plan, its spaces being in order.
pub(crate) fn header_of(plan: &StorePlan, plans: &[SpacePlan], salt: [u8; 16]) -> Header
    requires { length plans.now ≤ most_spaces }
    ensures said { header_said result ≡ record { algorithm = plan.now.algorithm; blocks = plan.now.blocks; salt = salt; spaces = map held_plan plans.now } }
    ensures format { result.format ≡ 2 }
    ensures count { result.count ≤ most_spaces }
    ensures blocks { result.blocks ≡ plan.now.blocks }
{
    Header {
        format: FORMAT,
        algorithm: plan.algorithm,
        blocks: plan.blocks,
        salt,
        count: plans.len(),
        spaces: header_spaces(plans),
    }
}

// What is known of the pages of a new space: page 0 is in clear, the others are unused.
fn home_list(alloc: Global, pages: u32) -> Result<HomeList, AllocError>
    ensures { IfOk result (λ homes. homes ≡ Clean 0 ∷ replicate (pages - 1) Unused) }
{
    let mut homes = Vec::new(alloc);
    homes.push(Home::Clean(0))?;
    for i in 1..pages {
        let _ = i;
        homes.push(Home::Unused)?;
    }
    Ok(HomeList::of(homes))
}

pub(crate) fn homes_of(alloc: Global, spaces: &[SpaceInfo]) -> Result<Homes, AllocError>
    ensures { IfOk result (λ homes. homes ≡ homes_made spaces.now) }
{
    let mut homes = Vec::new(alloc);
    for i in 0..spaces.len() {
        homes.push(home_list(alloc, spaces[i].pages)?)?;
    }
    Ok(Homes::of(homes))
}
